// What holds after every list of calls (demand 3): statement and proof, laws alone.
#![tactic(auto)]
