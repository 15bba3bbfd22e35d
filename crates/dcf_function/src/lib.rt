// The comparison function of Boyle and others (2021), over any opening of a node: how a key for a
// point is made, what a party's value at an input is, and the claims about the two values. This
// crate holds definitions and claims; `dcf_keys` and `dcf_walk` compute them over ChaCha20 blocks.
#![tactic(auto)]
