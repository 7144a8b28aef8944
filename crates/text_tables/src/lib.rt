//! Tables of texts: words and lines, commands, assumption lists, schedules and certificates.
#![tactic(auto)]

#[cfg(test)]
mod tests;
