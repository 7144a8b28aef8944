//! Refusals of raw firmware files.

ghost use Rattle.std.specs.Prelude.{◌≡◌};
ghost use Rattle.replies.specs.Texts.{raw_number};

/// Why a raw firmware file is refused.
#[derive(Clone, Copy)]
pub enum RawRefusal {
    /// Its length is odd.
    OddLength,
    /// It is longer than flash.
    TooLong,
}

impl RawRefusal {
    /// Its number in the line of the refusal.
    pub fn number(self) -> u64
        ensures { result ≡ raw_number self }
    {
        match self {
            RawRefusal::OddLength => 1,
            RawRefusal::TooLong => 2,
        }
    }
}
