// No code: specs/ has what holds after every list of calls of reassembly.
#![tactic(auto)]
