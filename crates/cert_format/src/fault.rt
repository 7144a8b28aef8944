//! Faults of the text of a certificate.

use avr_model::device::Device;
use certificate::Limit;
use line_reading::Malformed;
use std::alloc::AllocError;
use std::fmt;
use thiserror::Error;

/// Why a text is not read as a certificate. Positions are offsets of lines.
#[derive(Clone, Copy, PartialEq, Eq, Drop, Error)]
pub enum CertFault {
    /// The first line with the wrong form is at this offset; or a line is missing, and this is the text's length.
    #[error("certificate malformed at {0}")]
    Malformed(usize),
    /// The line at this offset has the right form but is not above the last one.
    #[error("certificate order at {0}")]
    Order(usize),
    /// A limit is passed.
    #[error("certificate limit")]
    Limit(Limit),
    /// The certificate is for this device, and not for the one that was asked for.
    #[error("certificate device")]
    Other(Device),
    /// Out of memory.
    #[error("out of memory")]
    Memory,
}

impl fmt::Debug for CertFault {
    fn fmt<W: fmt::Write>(&self, f: &mut fmt::Formatter<W>) -> fmt::Result {
        fmt::Display::fmt(self, f)
    }
}

impl From<Malformed> for CertFault {
    ghost use Rattle.std.specs.Prelude.{◌≡◌};
    ghost use Rattle.cert_format.specs.declared.fault.CertFault.TheVariants.{Malformed as MalformedAt};

    ghost from_gives = { λ fault e. e ≡ MalformedAt fault.0 };

    fn from(fault: Malformed) -> CertFault {
        CertFault::Malformed(fault.0)
    }
}

impl From<AllocError> for CertFault {
    ghost use Rattle.std.specs.Prelude.{◌≡◌};
    ghost use Rattle.cert_format.specs.declared.fault.CertFault.TheVariants.{Memory};

    ghost from_gives = { λ fault e. e ≡ Memory };

    fn from(_fault: AllocError) -> CertFault {
        CertFault::Memory
    }
}
