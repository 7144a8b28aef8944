//! Laws of definitions that readers and writers share, as the contract of a function with an empty body.

ghost use Rattle.text_base.specs.Spelling.{HexIsRead, HexIsSpelled, DecimalIsRead, DecimalIsSpelled, LinesAreRead, LinesMakeText, LinesOfTextAreLines, SizesAreLengths, WordsAreRead};
ghost use Rattle.text_base.specs.Writing.{WritesLines};

/// Each number has one text in hexadecimal digits of a given length, and one in decimal, and reading it gives the number. Lines and words
/// are read from the text that they form, and each text consists of its lines. A writer appends the text of each line.
pub fn spelling()
    ensures hex_read { HexIsRead }
    ensures hex_spelled { HexIsSpelled }
    ensures decimal_read { DecimalIsRead }
    ensures decimal_spelled { DecimalIsSpelled }
    ensures lines { LinesAreRead }
    ensures text { LinesMakeText }
    ensures are_lines { LinesOfTextAreLines }
    ensures sizes { SizesAreLengths }
    ensures words { WordsAreRead }
    ensures writing { WritesLines }
{}
