//! Laws of the texts of assumption lists, and of targets, as contracts of functions with an empty body.

ghost use Rattle.assumption_files.specs.Exact.{ReadingIsExact, RefusedListIsStuck, ListsHaveOneText, EntryWords};
ghost use Rattle.assumption_files.specs.Targets.{TargetsAreThoseOfMembers};

use line_reading::laws::word_laws;

/// Reading and spelling of entries are inverse. No text is the spelling of two lists. A refusal has the first line with which no list
/// continues.
pub fn list_texts()
    ensures words { EntryWords }
    ensures one { ListsHaveOneText }
    ensures stuck { RefusedListIsStuck }
{
    word_laws();
}

/// The result of reading a text is the one that is due by the spelling of lists, and no other is due.
pub fn reading_is_exact()
    ensures { ReadingIsExact }
{
    word_laws();
}

/// The targets are exactly the words of members modulo the limit of word addresses in the device's texts. They ascend and are monotone.
pub fn targets_are_those_of_members()
    ensures { TargetsAreThoseOfMembers }
{}
