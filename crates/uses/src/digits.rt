//! Shows `text_base`.

ghost use Rattle.std.specs.Prelude.{◌≡◌, IfOk, Ok};

use std::alloc::{AllocError, Global};
use text_base::laws::spelling;
use text_base::{DigitFault, LineWriter, read_dec};

/// Writes a number in decimal and reads it back, which gives that number.
pub fn read_back(alloc: Global, number: u64) -> Result<Result<u64, DigitFault>, AllocError>
    ensures { IfOk result (λ read. read ≡ Ok number) }
{
    spelling();
    let mut out = LineWriter::new(alloc);
    out.dec(number)?;
    let text = out.finish();
    Ok(read_dec(&text, u64::MAX))
}
