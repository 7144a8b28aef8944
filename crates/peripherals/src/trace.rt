//! The result of a run that hooks choose.

ghost use Rattle.std.specs.Prelude.{◌≡◌, ◌<◌, ◌++◌, ◌∷◌, [], length, OnOk, OnErr, IsTrue, ◌↔◌};
ghost use Rattle.peripherals.specs.Spelling.{most_steps};
ghost use Rattle.peripherals.specs.Repeating.{choices_of};

use avr_machine::{Choice, Stop};
use std::alloc::{AllocError, Global};
use std::marker::Model;

/// Equal choices in a row.
#[derive(Clone, Copy)]
pub struct Repeated {
    /// The choice.
    pub choice: Choice,
    /// How many times.
    pub count: u32,
}

/// The choices of a run in order. Contracts see their list. Stored as runs of equal choices, whose number determines the memory.
#[derive(Drop)]
pub struct Choices {
    runs: Vec<Repeated>,
}

impl Model for Choices {
    ghost use Rattle.std.specs.Prelude.{List};
    ghost use Rattle.avr_model.specs.declared.choice.Choice.{Choice};
    ghost use Rattle.peripherals.specs.Repeating.{choices_of};

    ghost Value = { List Choice };

    ghost view = { λ c. choices_of c.runs.items };
}

/// The choices of a run, the machine's depth at its end, and how it ends.
#[derive(Drop)]
pub struct PeripheralTrace {
    /// The choices in order. A choice that met a stop is the last.
    pub choices: Choices,
    /// The machine's greatest depth so far, in bytes.
    pub depth: u16,
    /// The stop that was met, or `End`.
    pub stop: Stop,
}

// Whether both are one choice.
fn is_same(a: Choice, b: Choice) -> bool
    ensures { IsTrue result ↔ (a ≡ b) }
{
    match (a, b) {
        (Choice::Go(a, b), Choice::Go(c, d)) => a == c && b == d,
        (Choice::Take(v, clears), Choice::Take(w, other)) => v == w && clears == other,
        _ => false,
    }
}

impl Choices {
    /// No choices.
    pub fn empty(alloc: Global) -> Choices
        ensures { result ≡ [] }
    {
        Choices {
            runs: Vec::new(alloc),
        }
    }

    /// The choices as runs of equal ones.
    pub fn runs(&self) -> &[Repeated]
        ensures { choices_of result.now ≡ self.now }
    {
        &self.runs
    }

    /// Appends a choice to fewer than 16,777,216. None is lost if memory runs out.
    pub fn push(&mut self, choice: Choice) -> Result<(), AllocError>
        requires few { length self.old < most_steps }
        ensures ok { OnOk result (self.new ≡ self.old ++ choice ∷ []) }
        ensures err { OnErr result (self.new ≡ self.old) }
    {
        let Some(last) = self.runs.pop() else {
            self.runs.push(Repeated { choice, count: 1 })?;
            return Ok(());
        };
        if is_same(last.choice, choice) {
            self.runs.push(Repeated {
                choice,
                count: last.count + 1,
            })?;
            return Ok(());
        }
        self.runs.push(last)?;
        self.runs.push(Repeated { choice, count: 1 })?;
        Ok(())
    }
}
