// A flight is sent again wholly or not at all: laws alone.
#![tactic(auto)]
