//! The guide of a trial.

ghost use Rattle.std.specs.Prelude.{◌≡◌, ◌≤◌, ◌+◌, nat_le, length};
ghost use Rattle.guided_trials.specs.Choosing.{member};
ghost use Rattle.guided_trials.specs.Needs.{greatest};

use avr_model::listed::Listed;
use std::marker::Model;

/// A nonempty ascending list of bytes. Seen as their list.
#[derive(Drop)]
pub struct ToldBytes {
    list: Listed<u8>,
}

impl Model for ToldBytes {
    ghost use Rattle.std.specs.Prelude.{ℕ, ◌≤◌, List, length};

    ghost Value = { List ℕ };

    ghost view = { λ b. b.list };

    ghost invariant = { λ b. 1 ≤ length b.list };
}

impl ToldBytes {
    /// These bytes; the list must not be empty.
    pub fn new(list: Listed<u8>) -> ToldBytes
        requires { 1 ≤ length list }
        ensures { result ≡ list }
    {
        ToldBytes { list }
    }

    /// The byte of this number, modulo their count.
    pub fn member(&self, number: u32) -> u8
        ensures { result ≡ member self.now number }
    {
        let bytes = self.list.as_slice();
        bytes[number as usize % bytes.len()]
    }
}

/// An interrupt that may be taken.
#[derive(Clone, Copy)]
pub struct Candidate {
    /// The vector, 2 to the device's last.
    pub vector: u8,
    /// Whether the vector's own enable bit is cleared.
    pub clears: bool,
    /// The bytes that it and all that it enters need below its return address, by the certificate.
    pub need: u32,
}

/// Interrupts that may be taken. Seen as their list.
#[derive(Drop)]
pub struct Candidates {
    list: Listed<Candidate>,
    // The greatest need of all.
    most: u32,
}

impl Model for Candidates {
    ghost use Rattle.std.specs.Prelude.{◌≡◌, List};
    ghost use Rattle.guided_trials.specs.declared.guide.Candidate.{Candidate};
    ghost use Rattle.guided_trials.specs.Needs.{greatest};

    ghost Value = { List Candidate };

    ghost view = { λ c. c.list };

    ghost invariant = { λ c. c.most ≡ greatest c.list };
}

// The greatest need of the interrupts, 0 if there is none.
fn greatest_need(takes: &[Candidate]) -> u32
    ensures { result ≡ greatest takes.now }
{
    let mut need = 0;
    for candidate in takes {
        need = need.max(candidate.need);
    }
    need
}

impl Candidates {
    /// These interrupts.
    pub fn new(list: Listed<Candidate>) -> Candidates
        ensures { result ≡ list }
    {
        let most = greatest_need(list.as_slice());
        Candidates { list, most }
    }

    /// The interrupts in order.
    pub fn as_slice(&self) -> &[Candidate]
        ensures { result.now ≡ self.now }
    {
        self.list.as_slice()
    }

    /// Whether a stack of this depth, with a return address of `back` bytes and the greatest need, reaches the bound.
    pub fn reach(&self, bound: u16, depth: u16, back: u8) -> bool
        ensures { result ≡ nat_le bound (depth + back + greatest self.now) }
    {
        let need = self.most;
        let fall = u64::from(depth) + u64::from(back);
        u64::from(bound) <= fall + u64::from(need)
    }
}

/// The guide of all trials of a certificate.
#[derive(Drop)]
pub struct Guide {
    /// The bytes that the firmware distinguishes, ascending.
    pub bytes: ToldBytes,
    /// The interrupts, by vector.
    pub takes: Candidates,
    /// The bound.
    pub bound: u16,
    /// The bytes of a return address.
    pub back: u8,
}

/// The state of a trial: its last number, and its input byte.
#[derive(Clone, Copy)]
pub struct TrialMoment {
    /// The number.
    pub number: u64,
    /// The byte.
    pub byte: u8,
}
