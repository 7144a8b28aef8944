//! Instances of a certificate. Source: own.

use node_keys::InstKey;

/// An instance of a certificate: the root, one call or one interrupt entry.
#[derive(Clone, Copy)]
pub struct Inst {
    /// Its key.
    pub key: InstKey,
    /// Above the ranks of all instances that it enters, at most 65,535.
    pub rank: u32,
    /// The bytes that it needs below its base with all that it enters, at most the depth of the device.
    pub need: u32,
}
