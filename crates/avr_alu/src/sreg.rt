//! The status register.

ghost use Rattle.std.specs.Prelude.{⊤, ◌≡◌, ◌<◌, [], ◌∷◌, codes};
ghost use Rattle.avr_model.specs.Sreg.{with_flags, flag};

use bitflags::{Flag, Flags, bitflag_items};

/// The status register: the flags C, Z, N, V, S, H, T and I in bits 0 to 7. Source: Instruction Set Manual DS40002198, "Status Register
/// (SREG)".
#[derive(Clone, Copy)]
pub struct Sreg(pub u8);

bitflag_items! {
    impl Sreg: u8 {
        // Carry.
        const C = 1;
        // Zero.
        const Z = 2;
        // Negative.
        const N = 4;
        // Two's complement overflow.
        const V = 8;
        // Sign: N xor V.
        const S = 16;
        // Half carry.
        const H = 32;
        // The bit that `bst` and `bld` copy.
        const T = 64;
        // Global interrupt enable.
        const I = 128;
    }
}

impl Flags for Sreg {
    type Bits = u8;

    ghost exact = { ⊤ };

    ghost table = { (codes "C", 1) ∷ (codes "Z", 2) ∷ (codes "N", 4) ∷ (codes "V", 8) ∷ (codes "S", 16) ∷ (codes "H", 32) ∷ (codes "T", 64) ∷ (codes "I", 128) ∷ [] };

    ghost set_of = { λ s. s.0 };

    fn flags<'a>() -> &'a [Flag<Sreg>] {
        Sreg::FLAGS
    }

    fn bits(&self) -> u8 {
        self.0
    }

    fn from_bits_retain(bits: u8) -> Sreg {
        Sreg(bits)
    }
}

impl Sreg {
    /// The register with no flag set, as it is at reset.
    pub fn empty() -> Sreg
        ensures { result.0 ≡ 0 }
    {
        Sreg(0)
    }

    /// The register with these eight bits, each of which is a flag.
    pub fn from_bits_retain(bits: u8) -> Sreg
        ensures { result.0 ≡ bits }
    {
        Sreg(bits)
    }

    /// The eight bits.
    pub fn bits(self) -> u8
        ensures { result ≡ self.0 }
    {
        self.0
    }

    /// Whether the flag in bit `index` is set.
    pub fn has(self, index: u8) -> bool
        requires { index < 8 }
        ensures { result ≡ flag self.0 index }
    {
        self.0 >> index & 1 == 1
    }

    /// Whether C is set.
    pub fn carry(self) -> bool
        ensures { result ≡ flag self.0 0 }
    {
        self.contains(Sreg::C)
    }

    /// Whether Z is set.
    pub fn zero(self) -> bool
        ensures { result ≡ flag self.0 1 }
    {
        self.contains(Sreg::Z)
    }

    /// Whether H is set.
    pub fn half_carry(self) -> bool
        ensures { result ≡ flag self.0 5 }
    {
        self.contains(Sreg::H)
    }

    // The register with the flags of an operation, with S as N xor V. T and I stay.
    pub(crate) fn with_outcome(self, outcome: FlagOutcome) -> Sreg
        ensures { result.0
            ≡ with_flags outcome.carry outcome.zero outcome.negative outcome.overflow outcome.half_carry self.0 }
    {
        let mut flags = self;
        flags.set(Sreg::C, outcome.carry);
        flags.set(Sreg::Z, outcome.zero);
        flags.set(Sreg::N, outcome.negative);
        flags.set(Sreg::V, outcome.overflow);
        flags.set(Sreg::S, outcome.negative != outcome.overflow);
        flags.set(Sreg::H, outcome.half_carry);
        flags
    }
}

// The flags that an operation may change.
#[derive(Clone, Copy)]
pub(crate) struct FlagOutcome {
    pub(crate) carry: bool,
    pub(crate) zero: bool,
    pub(crate) negative: bool,
    pub(crate) overflow: bool,
    pub(crate) half_carry: bool,
}
