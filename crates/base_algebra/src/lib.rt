// Words modulo 2^32 as functions on numbers, their laws, and the ring tactic that every
// proof above uses to rearrange sums and products. It holds definitions and laws only.
#![tactic(auto)]
