// No code: specs/ has what holds of the readings that a host deals with, after every list of calls.
#![tactic(auto)]
