//! Laws of pools, as the contract of a function with an empty body.

ghost use Rattle.state_pool.specs.Laws.{ReleasesUndo};
ghost use Rattle.state_pool.specs.Counts.{CountsFollow};

/// Internings and releases:
/// - `undone`: a release undoes an interning, and equal states have one number;
/// - `counts`: interning adds one use of its number, releasing removes one, and both leave the states of used numbers.
pub fn uses_are_counted()
    ensures undone { ReleasesUndo }
    ensures counts { CountsFollow }
{}
