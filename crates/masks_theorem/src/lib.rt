// Two hosts that call the C library, and give epochs mask keys: every list of its calls is a list of calls of crate hosts_theorem in which the masks of such
// epochs are ChaCha20's, and the claim holds of it, laws alone.
#![tactic(auto)]
