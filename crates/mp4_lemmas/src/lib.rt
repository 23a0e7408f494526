//! Lemmas about lists, sums, booleans, numbers, options and results, which the proofs of other crates cite. There is
//! no code in this crate.
#![tactic(auto)]
