//! Tables of worked values: devices and their enable bits, bytes with some bits known, places in a frame, states, keys, and arithmetic.
#![tactic(auto)]

#[cfg(test)]
mod tests;
