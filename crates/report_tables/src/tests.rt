//! The tables by subject.

mod needs;
