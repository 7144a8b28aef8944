//! The forms of certificates. Source: own.

use crate::version::Version;
use avr_model::device::Device;

/// The form of a certificate's text, which decides the words of its nodes.
#[derive(Clone, Copy)]
pub struct Form {
    /// The device that it is for.
    pub device: Device,
    /// Its version.
    pub version: Version,
}
