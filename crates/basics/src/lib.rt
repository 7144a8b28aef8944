//! Facts on tests, numbers and lists that proofs cite, beside those of std. No code.
#![tactic(auto)]
