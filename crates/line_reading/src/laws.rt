//! Laws of the definitions that the readers of texts share.

ghost use Rattle.line_reading.specs.Words.{WordLaws};
ghost use Rattle.line_reading.specs.Appending.{AppendingLaws};

use text_base::laws::spelling;

/// Numbers, words and lines that are written are read back, and what is read was written so. The body is empty; the contract is these laws.
pub fn word_laws()
    ensures { WordLaws }
{
    spelling();
}

/// Written lines are appended, and a text cut short is a prefix. The body is empty; the contract is these laws.
pub fn appending_laws()
    ensures { AppendingLaws }
{
    spelling();
}
