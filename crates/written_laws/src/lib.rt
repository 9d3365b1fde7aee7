// What is laid in the queue reads back by the receiving definitions: laws alone.
#![tactic(auto)]
