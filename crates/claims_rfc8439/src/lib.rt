// RFC 8439's worked examples of section 2 hold of the definitions that the contracts cite. This
// crate has no code: the published vectors are run by the program `test_vectors`.
#![tactic(auto)]
