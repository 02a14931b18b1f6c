// The linkage desk's rules as definitions (specs/) and the laws about them (proofs/). No code: what runs stands in the crates above.
#![tactic(auto)]
