//! The digest that test programs print in place of long texts: FNV-1a of 32 bits. Source: draft-eastlake-fnv. The stored output of
//! `decode_table` and `elf_table`, which another program computes, shows that it is this digest.
#![tactic(auto)]

/// The digest of no bytes.
pub const EMPTY: u32 = 0x811C_9DC5;

const FACTOR: u32 = 0x0100_0193;

/// The digest with these bytes appended.
pub fn digest(before: u32, bytes: &[u8]) -> u32 {
    let mut value = before;
    for byte in bytes {
        value = (value ^ u32::from(*byte)).wrapping_mul(FACTOR);
    }
    value
}
