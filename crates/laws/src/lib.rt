// No code: sums and tests over lists, whole-number differences, and the laws of both, for every crate above.
#![tactic(auto)]
