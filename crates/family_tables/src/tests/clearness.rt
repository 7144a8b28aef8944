//! The definitions of clear nodes are satisfiable, as the contract of a function with an empty body.

ghost use Rattle.family_tables.specs.Clearness.{ClearnessIsMet};

/// A firmware that stores onto a free byte of its own stack has a sound family of clear nodes. If the byte was pushed, the store isn't
/// clear.
pub fn clearness_is_met()
    ensures { ClearnessIsMet }
{}
