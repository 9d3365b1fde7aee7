// The epochs keyed to receive rise, and none is keyed twice: laws alone.
#![tactic(auto)]
