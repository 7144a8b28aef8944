//! Tables of whole families: edges, nesting, which states are left out, verdicts, what is said of a certificate that is found, and trials.
//! The texts of these answers stand in tests/end_to_end.
#![tactic(auto)]

#[cfg(test)]
mod tests;
