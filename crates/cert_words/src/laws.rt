//! Laws of the words of certificates, as the contract of a function with an empty body.

ghost use Rattle.cert_words.specs.Laws.{ValueWords};
ghost use Rattle.cert_words.specs.KeyLaws.{KeyWords};

use bit_domain::laws::{bytes_are_sets, lattice_is_of_sets};
use line_reading::laws::word_laws;
use pair_words::laws::facts_words;

/// Reading and spelling are inverse for the words of values, slots, flags, carry tags and forms of the stack pointer, in each version
/// that has them; and for the words of an instance, of a node within its instance and of its form.
pub fn key_words()
    ensures values { ValueWords }
    ensures keys { KeyWords }
{
    word_laws();
    bytes_are_sets();
    lattice_is_of_sets();
    facts_words();
}
