//! The exit status of the program.

ghost use Rattle.std.specs.Prelude.{◌≡◌};
ghost use Rattle.replies.specs.Status.{code};

/// What the program's exit status says.
#[derive(Clone, Copy)]
pub enum Status {
    /// The command did its work.
    Done,
    /// The certificate is not valid.
    Rejected,
    /// The words are no command.
    Usage,
    /// A file cannot be read.
    ReadFault,
    /// The output cannot be written.
    WriteFault,
    /// A file exceeds its cap.
    TooLong,
    /// The firmware is no image of the device.
    BadFirmware,
    /// The text is no assumption list.
    BadAssumptions,
    /// The text is no certificate.
    BadCertificate,
    /// The text is no schedule, or a choice of it is illegal.
    BadSchedule,
    /// No valid certificate exists.
    NoCertificate,
    /// The rounds end at none of the families within the budget.
    Spent,
    /// Out of memory.
    OutOfMemory,
    /// The certificate is valid, but a node may flag a step.
    Unclear,
    /// The text is no peripherals file.
    BadPeripherals,
}

impl Status {
    /// Its number, by docs/FORMATS.md.
    pub fn code(self) -> u8
        ensures { result ≡ code self }
    {
        match self {
            Status::Done => 0,
            Status::Rejected => 1,
            Status::Usage => 2,
            Status::ReadFault => 3,
            Status::WriteFault => 4,
            Status::TooLong => 5,
            Status::BadFirmware => 6,
            Status::BadAssumptions => 7,
            Status::BadCertificate => 8,
            Status::BadSchedule => 9,
            Status::NoCertificate => 10,
            Status::Spent => 11,
            Status::OutOfMemory => 12,
            Status::Unclear => 13,
            Status::BadPeripherals => 14,
        }
    }
}
