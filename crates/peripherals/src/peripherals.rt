//! The peripherals that are connected to a machine.

ghost use Rattle.std.specs.Prelude.{◌≡◌, ◌<◌, ◌+◌, ◌*◌, ℕ, false, length, Some, slice_get};
ghost use Rattle.std.specs.Option.{option_map};
ghost use Rattle.text_base.specs.Answers.{Answers};
ghost use Rattle.peripherals.specs.declared.peripherals.PeripheralsFault.TheVariants as fault;
ghost use Rattle.peripherals.specs.Reading.{setup_in};
ghost use Rattle.peripherals.specs.Exact.{AnswersSpelledSetup, IsSetupDueUnlessMemory};
ghost use Rattle.peripherals.specs.Due.{is_timer, is_of, is_left, is_due, input_after};

use crate::laws::reading_is_exact;
use crate::reading::read_setup;
use avr_model::device::Device;
use avr_model::listed::Listed;
use line_reading::Malformed;
use std::alloc::{AllocError, Global};
use std::marker::Model;

/// What kind of source asks for interrupts.
#[derive(Drop)]
pub enum SourceKind {
    /// A timer, which requests again and again.
    Timer,
    /// A receiver, which requests once for each of its 1 to 64 bytes.
    Bytes(Listed<u8>),
}

/// An interrupt source. Its request number n, counted from 0, is pending from step `first` + n × `period` until it is taken.
#[derive(Drop)]
pub struct Source {
    /// The vector, one of the AVR's.
    pub vector: u8,
    /// The step of the first request, at most 16,777,216.
    pub first: u32,
    /// The steps between two requests, 1 to 16,777,216.
    pub period: u32,
    /// Timer or receiver.
    pub kind: SourceKind,
}

impl Source {
    /// Whether it is a timer.
    pub fn is_timer(&self) -> bool
        ensures { result ≡ is_timer self.now.kind }
    {
        match self.kind {
            SourceKind::Timer => true,
            SourceKind::Bytes(_) => false,
        }
    }

    // Whether it is a timer if `timers`, otherwise whether it is a receiver.
    pub(crate) fn is_of(&self, timers: bool) -> bool
        ensures { result ≡ is_of timers self.now.kind }
    {
        match self.kind {
            SourceKind::Timer => timers,
            SourceKind::Bytes(_) => !timers,
        }
    }

    // Whether requests are left after this many.
    fn is_left(&self, taken: u32) -> bool
        ensures { result ≡ is_left self.now.kind taken }
    {
        match &self.kind {
            SourceKind::Timer => true,
            SourceKind::Bytes(bytes) => (taken as usize) < bytes.as_slice().len(),
        }
    }

    // The input byte after request number `n` was taken: a receiver's byte `n`, or 0 if it has none; for a timer the byte before.
    pub(crate) fn input_after(&self, n: u32, input: u8) -> u8
        ensures { result ≡ input_after self.now.kind n input }
    {
        match &self.kind {
            SourceKind::Timer => input,
            SourceKind::Bytes(bytes) => bytes.as_slice().get(n as usize).copied().unwrap_or(0),
        }
    }

    // The step of the request after this many, if one is left.
    fn request(&self, taken: u32) -> u64
        ensures { result ≡ self.now.first + taken * self.now.period }
    {
        u64::from(self.first) + u64::from(taken) * u64::from(self.period)
    }

    /// Whether a request is pending at this step, after this many were taken. No request is lost.
    pub fn is_due(&self, taken: u32, step: u32) -> bool
        ensures { result ≡ is_due self.now taken step }
    {
        self.request(taken) <= u64::from(step) && self.is_left(taken)
    }

    // A step before which no request is pending, after this many were taken.
    pub(crate) fn due_from(&self, taken: u32) -> u64
        ensures { (step : ℕ) → step < result → is_due self.now taken step ≡ false }
    {
        if self.is_left(taken) {
            self.request(taken)
        } else {
            u64::MAX
        }
    }
}

/// A fill byte for registers and SRAM at reset, and up to 32 interrupt sources; contracts see these.
#[derive(Drop)]
pub struct Peripherals {
    fill: u8,
    sources: Vec<Source>,
}

impl Model for Peripherals {
    ghost use Rattle.peripherals.specs.Spelling.{Setup};

    ghost Value = { Setup };

    ghost view = { λ d. record { fill = d.fill; sources = d.sources.items } };
}

/// Why a text is refused, or not read.
#[derive(Clone, Copy, Drop)]
pub enum PeripheralsFault {
    /// No text of peripherals continues with the line at this offset. If a line is missing, this is the text's length.
    Malformed(usize),
    /// Out of memory.
    Memory,
}

impl From<Malformed> for PeripheralsFault {
    ghost use Rattle.std.specs.Prelude.{◌≡◌};
    ghost use Rattle.peripherals.specs.declared.peripherals.PeripheralsFault.{PeripheralsFault};
    ghost use Rattle.peripherals.specs.declared.peripherals.PeripheralsFault.TheVariants.{Malformed as MalformedAt};

    ghost from_gives = { λ fault e. e ≡ MalformedAt fault.0 };

    fn from(fault: Malformed) -> PeripheralsFault {
        PeripheralsFault::Malformed(fault.0)
    }
}

impl From<AllocError> for PeripheralsFault {
    ghost use Rattle.std.specs.Prelude.{◌≡◌};
    ghost use Rattle.peripherals.specs.declared.peripherals.PeripheralsFault.TheVariants.{Memory};

    ghost from_gives = { λ fault e. e ≡ Memory };

    fn from(_fault: AllocError) -> PeripheralsFault {
        PeripheralsFault::Memory
    }
}

impl Peripherals {
    pub(crate) fn new(fill: u8, sources: Vec<Source>) -> Peripherals
        ensures { result ≡ record { fill = fill; sources = sources.items } }
    {
        Peripherals { fill, sources }
    }

    /// Parses a text of peripherals that are connected to this AVR. Fails with `Malformed` exactly if the text is none, with the offset of the first line with which none
    /// continues, or with the text's length if a line is missing. Source: own.
    pub fn read(alloc: Global, device: Device, text: &[u8]) -> Result<Peripherals, PeripheralsFault>
        ensures exact { Answers (λ d. d) fault.Memory result (setup_in device text.now) }
        ensures told { IsSetupDueUnlessMemory device text.now result }
        ensures spelled { AnswersSpelledSetup device text.now result }
    {
        reading_is_exact();
        read_setup(alloc, device, text)
    }

    /// The fill byte of registers and SRAM.
    pub fn fill(&self) -> u8
        ensures { result ≡ self.now.fill }
    {
        self.fill
    }

    /// The number of sources.
    pub fn count(&self) -> usize
        ensures { result ≡ length self.now.sources }
    {
        self.sources.len()
    }

    /// The source of this number, counted from 0; `None` if there is none.
    pub fn source(&self, n: usize) -> Option<&Source>
        ensures { option_map (λ s. s.now) result ≡ slice_get self.now.sources n }
    {
        self.sources.get(n)
    }

    /// The vector of source `n`.
    pub fn vector(&self, n: usize) -> u8
        requires { n < length self.now.sources }
        ensures { option_map (λ s. s.vector) (slice_get self.now.sources n) ≡ Some result }
    {
        self.sources[n].vector
    }

    /// Whether source `n` is a timer.
    pub fn is_timer(&self, n: usize) -> bool
        requires { n < length self.now.sources }
        ensures { option_map (λ s. is_timer s.kind) (slice_get self.now.sources n) ≡ Some result }
    {
        self.sources[n].is_timer()
    }

    /// Whether a request of source `n` is pending at this step, after this many were taken.
    pub fn due(&self, n: usize, taken: u32, step: u32) -> bool
        requires { n < length self.now.sources }
        ensures { option_map (λ s. is_due s taken step) (slice_get self.now.sources n) ≡ Some result }
    {
        self.sources[n].is_due(taken, step)
    }
}
