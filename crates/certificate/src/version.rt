//! The versions of certificates. Source: own.

ghost use Rattle.std.specs.Prelude.{◌≡◌};
ghost use Rattle.certificate.specs.Versions.{says_device, written_version};

use avr_model::device::Device;
use vector_table::Assumptions;

/// The version of a certificate, which decides what its text can say. A text that says its device has its version by its assumptions: the
/// second or the third.
#[derive(Clone, Copy, PartialEq, Eq)]
pub enum Version {
    /// The first: a value's range is that of its bits, no carry tag is a register's or a sum's, and no node has a pick.
    One,
    /// The second: ranges, carry tags of registers and of sums, and picks are written.
    Two,
    /// The third: facts on register pairs are written too. It is for certificates whose assumptions have the line `pairs`, and only for
    /// these.
    Three,
}

/// Whether the text of a certificate for the device says the device: not for the ATmega48PA, 88PA, 168PA and 328P.
pub fn says_device(device: Device) -> bool
    ensures { result ≡ says_device device }
{
    device.reads_masks()
}

/// The version of a certificate with these assumptions: the third exactly if they have the line `pairs`, else the second.
pub fn written_version(assumptions: &Assumptions) -> Version
    ensures { result ≡ written_version assumptions.now }
{
    if assumptions.has_pairs() {
        Version::Three
    } else {
        Version::Two
    }
}
