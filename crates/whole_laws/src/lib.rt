// A message is sent wholly or not at all, and no call leaves the queue's ranges: laws alone.
#![tactic(auto)]
