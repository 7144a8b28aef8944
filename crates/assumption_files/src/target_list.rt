//! Lists of at most 64 words, which take no heap memory.

ghost use Rattle.std.specs.Prelude.{◌≡◌, ◌≤◌, ◌<◌, ◌+◌, ◌^◌, ◌++◌, ℕ, [], ◌∷◌, map, length};
ghost use Rattle.std.specs.List.{All};
ghost use Rattle.bit_domain.specs.Numbers.{with_top};
ghost use Rattle.assumption_files.specs.Targets.{KeepsTargets, most_targets};

use bit_domain::Tri;
use std::marker::Model;
use thiserror::Error;

// The most words of a list.
const MOST_TARGETS: usize = 64;

/// There are more than 64 words.
#[derive(Clone, Copy, Debug, PartialEq, Eq, Drop, Error)]
#[error("more than 64 targets")]
pub struct TooMany;

/// The possible targets of an indirect transfer: at most 64 words, ascending. Seen as the list of them.
#[derive(Drop)]
pub struct Targets {
    words: [u32; 64],
    count: usize,
}

impl Model for Targets {
    ghost use Rattle.std.specs.Prelude.{ℕ, ◌≤◌, List, take};

    ghost Value = { List ℕ };

    ghost view = { λ t. take t.count t.words };

    ghost invariant = { λ t. t.count ≤ 64 };
}

impl Targets {
    // The word 0 alone.
    pub(crate) fn zero() -> Targets
        ensures { result ≡ 0 ∷ [] }
    {
        Targets {
            words: [0; 64],
            count: 1,
        }
    }

    /// The words, ascending.
    pub fn as_slice(&self) -> &[u32]
        ensures value { result.now ≡ self.now }
        ensures few { length result.now ≤ most_targets }
    {
        &self.words[..self.count]
    }

    fn push(&mut self, word: u32)
        requires { length self.old < most_targets }
        ensures { self.new ≡ self.old ++ word ∷ [] }
    {
        self.words[self.count] = word;
        self.count += 1;
    }

    // The words, each raised by a weight.
    fn raised(&self, weight: u32) -> Targets
        requires { All (λ n. weight + n < 2 ^ 32) self.now }
        ensures { result ≡ map (λ n. weight + n) self.now }
    {
        let mut raised = Targets {
            words: [0; 64],
            count: 0,
        };
        let words = self.as_slice();
        for word in words {
            raised.push(weight + *word);
        }
        raised
    }

    // Appends each word again, raised by a weight.
    fn double(&mut self, weight: u32)
        requires room { length self.old ≤ 32 }
        requires fits { All (λ n. weight + n < 2 ^ 32) self.old }
        ensures { self.new ≡ self.old ++ map (λ n. weight + n) self.old }
    {
        let count = self.as_slice().len();
        for at in 0..count {
            let word = self.as_slice()[at];
            self.push(weight + word);
        }
    }

    // These words with a top bit of this weight: clear, set, or both. Fails if there are more than 64.
    pub(crate) fn with_bit(mut self, bit: Tri, weight: u32) -> Result<Targets, TooMany>
        requires { All (λ n. weight + n < 2 ^ 32) self }
        ensures { KeepsTargets result (with_top bit weight self) }
    {
        match bit {
            Tri::Zero => Ok(self),
            Tri::One => Ok(self.raised(weight)),
            Tri::Any => {
                if self.as_slice().len() > MOST_TARGETS / 2 {
                    return Err(TooMany);
                }
                self.double(weight);
                Ok(self)
            }
        }
    }
}
