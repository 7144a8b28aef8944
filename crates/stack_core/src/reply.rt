//! Replies.

use replies::status::Status;

/// A status with its text.
#[derive(Drop)]
pub struct Reply {
    pub status: Status,
    pub text: Vec<u8>,
}
