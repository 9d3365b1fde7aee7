// Two hosts that call the C library: every list of its calls is a list of events of the claim (crate ends_theorem), and the claim holds of what the
// hosts saw, laws alone.
#![tactic(auto)]
