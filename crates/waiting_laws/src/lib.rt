// What lies in the queue's memory, over all calls that send: laws alone.
#![tactic(auto)]
