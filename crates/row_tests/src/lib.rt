//! Runs tables of rows whose answers were worked out independently, and keeps the first row that is wrong. For crates of tests.
#![tactic(auto)]

ghost use Rattle.std.specs.Prelude.{◌≡◌, ◌≢◌, ◌<◌, Option, Some, None, length, take, IsTrue, if◌then◌else◌};
ghost use Rattle.std.specs.List.{All};
ghost use Rattle.std.specs.Option.{IfSome, option_map};
ghost use Rattle.row_tests.specs.Told.{AreTold, row_told};

use std::alloc::Global;

/// A row whose answer was worked out independently.
pub trait WorkedRow {
    /// What is true of a row that holds. Nothing, unless an `impl` says more: then `tell` says it of every row before the wrong one.
    ghost IsRight: { Self → Type 0 } = { λ _. Unit {0} };

    /// Whether the row holds. Running out of memory is wrong too.
    fn holds(&self, alloc: Global) -> bool
        ensures { IsTrue result → IsRight self.now };
}

/// The first wrong row, if there is one: the name of its table, and its number from 0.
pub struct FirstWrong {
    pub wrong: Option<(&'static str, usize)>,
}

// The first row that does not hold.
fn wrong_row<R: WorkedRow>(alloc: Global, rows: &[R]) -> Option<usize>
    ensures inside { IfSome result (λ at. at < length rows.now) }
    ensures earlier { IfSome result (λ at. All R.IsRight (take at rows.now)) }
    ensures none { result ≡ None → All R.IsRight rows.now }
{
    for at in 0..rows.len() {
        if !rows[at].holds(alloc) {
            return Some(at);
        }
    }
    None
}

/// Keeps the wrong row of a table, if there is one, unless one was found before.
pub fn tell_row(told: &mut FirstWrong, table: &'static str, wrong: Option<usize>)
    ensures first { told.old.wrong ≡ None → told.new.wrong ≡ option_map (λ row. (table.entry, row)) wrong }
    ensures kept { told.old.wrong ≢ None → told.new.wrong ≡ told.old.wrong }
{
    if let (None, Some(row)) = (told.wrong, wrong) {
        told.wrong = Some((table, row));
    }
}

/// Compares the rows of named tables in order and keeps the first wrong one, unless one was found before.
pub fn tell<R: WorkedRow>(told: &mut FirstWrong, alloc: Global, tables: &[(&'static str, &[R])])
    ensures first { told.old.wrong ≡ None → AreTold R.IsRight (λ rows. rows.now) tables.now told.new.wrong }
    ensures kept { told.old.wrong ≢ None → told.new.wrong ≡ told.old.wrong }
{
    for (name, rows) in tables {
        tell_row(told, *name, wrong_row(alloc, rows));
    }
}

/// Keeps the number of a fact that is wrong, unless a wrong row was found before.
pub fn tell_fact(told: &mut FirstWrong, number: usize, holds: bool)
    ensures first { told.old.wrong ≡ None → row_told told.new.wrong ≡ (if holds then None else Some number) }
    ensures kept { told.old.wrong ≢ None → told.new.wrong ≡ told.old.wrong }
{
    tell_row(told, "fact", if holds { None } else { Some(number) });
}
