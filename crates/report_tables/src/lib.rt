//! Tables of reports. Answers of the whole program are in tests/end_to_end.
#![tactic(auto)]

#[cfg(test)]
mod tests;
