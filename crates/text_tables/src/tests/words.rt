//! Each call with ample memory, and faults at chosen calls.

use row_tests::WorkedRow;
use std::alloc::{AllocError, Global};
use text_base::{
    DigitFault, FileFault, Files, LineReader, LineWriter, MemFiles, MemSink, Sink, SinkFault,
    Words, put_all, read_dec, read_hex,
};

// The reads of one object in order: the name, the most bytes that are read, and the answer.
static READS: [(&str, usize, Result<&[u8], FileFault>); 5] = [
    ("a", 3, Ok(b"new")),
    ("a", 3, Err(FileFault::Failed)),
    ("a", 2, Err(FileFault::TooLong)),
    ("b", 3, Err(FileFault::Failed)),
    ("a", 3, Ok(b"new")),
];

fn is_read(
    files: &mut MemFiles,
    alloc: Global,
    row: &(&str, usize, Result<&[u8], FileFault>),
) -> bool {
    match files.read(alloc, row.0, row.1) {
        Ok(bytes) => row.2 == Ok(bytes.as_slice()),
        Err(fault) => row.2 == Err(fault),
    }
}

// The first read of these files that has another answer.
fn misread(files: &mut MemFiles, alloc: Global) -> Option<usize> {
    for (at, row) in READS.iter().enumerate() {
        if !is_read(files, alloc, row) {
            return Some(at);
        }
    }
    None
}

/// The first wrong read of an older and a newer object with one name, of which the second read fails.
pub fn misread_of_two(alloc: Global) -> Option<usize> {
    let mut files = MemFiles::new(alloc);
    if files.add("a", b"older").is_ok() && files.add("a", b"new").is_ok() && files.fail(1).is_ok() {
        misread(&mut files, alloc)
    } else {
        Some(0)
    }
}

// The texts that one sink is given in order, the answers, and the bytes written afterwards. The sink takes 1 byte, 2 and the rest of the
// first text, 2 bytes and then a fault for the second, and none of the last.
static PUTS: [(&[u8], Result<(), SinkFault>, &[u8]); 4] = [
    (b"abcdef", Ok(()), b"abcdef"),
    (b"ghijkl", Err(SinkFault::Failed), b"abcdefgh"),
    (b"mn", Ok(()), b"abcdefghmn"),
    (b"o", Err(SinkFault::Failed), b"abcdefghmn"),
];

fn is_put(sink: &mut MemSink, row: &(&[u8], Result<(), SinkFault>, &[u8])) -> bool {
    put_all(sink, row.0) == row.1 && sink.written() == row.2
}

// The first text that this sink answers otherwise; after all of them it takes no byte.
fn misput(sink: &mut MemSink) -> Option<usize> {
    for (at, row) in PUTS.iter().enumerate() {
        if !is_put(sink, row) {
            return Some(at);
        }
    }
    if sink.put(b"") == Ok(0) {
        None
    } else {
        Some(PUTS.len())
    }
}

// Takes the sink's pieces and faults.
fn plan(sink: &mut MemSink) -> Result<(), AllocError> {
    sink.short(0, 1)?;
    sink.short(1, 2)?;
    sink.short(3, 2)?;
    sink.fail(4)?;
    sink.short(6, 0)
}

pub fn misput_in_pieces(alloc: Global) -> Option<usize> {
    let mut sink = MemSink::new(alloc);
    match plan(&mut sink) {
        Ok(()) => misput(&mut sink),
        Err(_) => Some(0),
    }
}

/// Digits, how many are read, and the answer.
pub struct Hexadecimal(&'static [u8], usize, Result<u128, DigitFault>);

pub static HEXADECIMAL: [(&str, &[Hexadecimal]); 1] = [(
    "hexadecimal",
    &[
        Hexadecimal(b"940C", 4, Ok(37900)),
        Hexadecimal(b"FFFFFFFF", 8, Ok(4294967295)),
        Hexadecimal(b"FFFFFFFFFFFFFFFF", 16, Ok(18446744073709551615)),
        Hexadecimal(b"FFFFFFFFFFFFFFFFFFF", 19, Ok(75557863725914323419135)),
        Hexadecimal(b"940c", 4, Err(DigitFault::BadDigit(3))),
        Hexadecimal(b"94", 4, Err(DigitFault::WrongLength(2))),
    ],
)];

impl WorkedRow for Hexadecimal {
    fn holds(&self, _alloc: Global) -> bool {
        self.1 >= 1 && self.1 <= 32 && read_hex(self.0, self.1) == self.2
    }
}

/// Digits, the greatest number, and the answer.
pub struct Decimal(&'static [u8], u64, Result<u64, DigitFault>);

pub static DECIMAL: [(&str, &[Decimal]); 1] = [(
    "decimal",
    &[
        Decimal(b"18446744073709551615", u64::MAX, Ok(u64::MAX)),
        Decimal(b"18446744073709551616", u64::MAX, Err(DigitFault::TooGreat)),
        Decimal(b"2049", 2048, Err(DigitFault::TooGreat)),
        Decimal(b"007", 2048, Err(DigitFault::BadDigit(0))),
        Decimal(b"7 ", 2048, Err(DigitFault::BadDigit(1))),
        Decimal(b"", 2048, Err(DigitFault::WrongLength(0))),
    ],
)];

impl WorkedRow for Decimal {
    fn holds(&self, _alloc: Global) -> bool {
        read_dec(self.0, self.1) == self.2
    }
}

// Each line: its text, its offset, whether a line feed ends it, and the offset after it.
static LINES: [(&[u8], usize, bool, usize); 3] = [
    (b"node 001F 18446744073709551615", 0, true, 31),
    (b"00", 31, true, 34),
    (b"end", 34, false, 37),
];

const WORDS: [&[u8]; 3] = [b"node", b"001F", b"18446744073709551615"];

fn write_lines(writer: &mut LineWriter) -> Result<(), AllocError> {
    writer.word(b"node")?;
    writer.hex(0x1F, 4)?;
    writer.dec(18446744073709551615)?;
    writer.end_line()?;
    writer.hex(0, 2)?;
    writer.end_line()?;
    writer.word(b"end")
}

fn is_line(reader: &mut LineReader<'_>, row: &(&[u8], usize, bool, usize)) -> bool {
    let before = reader.offset();
    let peeked = match reader.peek() {
        Some(line) => line.text == row.0 && before == reader.offset(),
        None => false,
    };
    match reader.next() {
        Some(line) => {
            let found = (line.text, line.at, line.whole, reader.offset());
            peeked && found == *row
        }
        None => false,
    }
}

/// Whether the words of the first line are exactly those.
pub fn are_words() -> bool {
    let mut words = Words::new(LINES[0].0);
    for word in WORDS {
        if words.next() != Some(word) {
            return false;
        }
    }
    words.next().is_none()
}

// The first line of a text that differs; there is none after them.
fn misread_line(text: &[u8]) -> Option<usize> {
    let mut reader = LineReader::new(text);
    for (at, row) in LINES.iter().enumerate() {
        if !is_line(&mut reader, row) {
            return Some(at);
        }
    }
    if reader.next().is_none() {
        None
    } else {
        Some(LINES.len())
    }
}

pub fn miswritten_line(alloc: Global) -> Option<usize> {
    let mut writer = LineWriter::new(alloc);
    match write_lines(&mut writer) {
        Ok(()) => misread_line(&writer.finish()),
        Err(_) => Some(0),
    }
}
