//! For maintainers: tests with hand-computed bytes and answers, from the standard and the layout table, one file for
//! each box or subject. Other tests read the vectors of `test_shared` with every cut and with wrong sizes.
//! `tests/files` has tests of `mp4_samples`, `mp4_movie` and `mp4_walk` with hand-written files, tables and fragments.
//!
//! For readers of `mp4_samples`: example callers.
#![tactic(auto)]

#[cfg(test)]
mod callers;
#[cfg(test)]
mod edit_callers;
#[cfg(test)]
mod tests;
