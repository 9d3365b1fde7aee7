// Two ends that talk: what holds after every list of their calls (demand 3), laws alone.
#![tactic(auto)]
