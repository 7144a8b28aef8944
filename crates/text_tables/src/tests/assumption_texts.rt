//! Texts with answers that were worked out by hand, written lists, and targets.

use assumption_files::{AssumeText, entry_of, read, targets, write};
use avr_model::device::Device;
use bit_domain::TriByte;
use row_tests::WorkedRow;
use std::alloc::{AllocError, Global};
use text_base::LineWriter;
use vector_table::Assumptions;

// The beginning of a text.
enum Start {
    Nothing,
    // A line with 63 items, which has at most 64.
    Items,
    // 4,096 lines, after which every line is malformed.
    Lines,
}

/// The beginning of a text, and the rest; its number of entries, or the refusal with its line.
pub struct Text(Start, &'static [u8], Result<usize, AssumeText>);

pub static TEXTS: [(&str, &[Text]); 3] = [
    (
        "assumptions",
        &[
            Text(Start::Nothing, b"", Ok(0)),
            Text(Start::Nothing, b"jump 0004 0005\n", Ok(1)),
            Text(Start::Nothing, b"store 0004 005D\n", Ok(1)),
            Text(Start::Nothing, b"prove 0000\n", Ok(1)),
            Text(
                Start::Nothing,
                b"jump 0004 0000 0005 3FFF\nstore 0004 0000 001F 005D\nprove 0004\n",
                Ok(3),
            ),
            Text(
                Start::Nothing,
                b"prove 0003\njump 0004 0005\nstore 0009 00C1\n",
                Ok(3),
            ),
            Text(
                Start::Nothing,
                b"jump 0004 0005\nstore 0004 005D\nprove 0004\nfree 0004\nnever 0004\nframe 0004\nrecur 0004 9\nscratch 0004\nfree 3FFF\n",
                Ok(9),
            ),
            Text(Start::Nothing, b"recur 0000 0\n", Ok(1)),
            Text(Start::Nothing, b"recur 3FFF 2048\n", Ok(1)),
            Text(
                Start::Nothing,
                b"scratch 0004\nrecur 0004 9\n",
                Err(AssumeText::Order(2)),
            ),
            Text(
                Start::Nothing,
                b"recur 0004 9\nrecur 0004 10\n",
                Err(AssumeText::Order(2)),
            ),
            Text(
                Start::Nothing,
                b"recur 0004 2049\n",
                Err(AssumeText::Malformed(1)),
            ),
            Text(
                Start::Nothing,
                b"recur 0004 09\n",
                Err(AssumeText::Malformed(1)),
            ),
            Text(
                Start::Nothing,
                b"recur 0004\n",
                Err(AssumeText::Malformed(1)),
            ),
            Text(
                Start::Nothing,
                b"recur 0004 9 9\n",
                Err(AssumeText::Malformed(1)),
            ),
            Text(
                Start::Nothing,
                b"scratch 0004 9\n",
                Err(AssumeText::Malformed(1)),
            ),
            Text(
                Start::Nothing,
                b"free 0004\nprove 0004\n",
                Err(AssumeText::Order(2)),
            ),
            Text(
                Start::Nothing,
                b"never 0004\nfree 0004\n",
                Err(AssumeText::Order(2)),
            ),
            Text(
                Start::Nothing,
                b"frame 0004\nnever 0004\n",
                Err(AssumeText::Order(2)),
            ),
            Text(
                Start::Nothing,
                b"never 0004\nnever 0004\n",
                Err(AssumeText::Order(2)),
            ),
            Text(Start::Nothing, b"pairs\n", Ok(1)),
            Text(
                Start::Nothing,
                b"pairs\njump 0000 0005\nframe 0000\n",
                Ok(3),
            ),
            Text(Start::Nothing, b"pairs\npairs\n", Err(AssumeText::Order(2))),
            Text(
                Start::Nothing,
                b"masks\njump 0000 0005\nframe 0000\n",
                Ok(3),
            ),
            Text(Start::Nothing, b"pairs\nmasks\nnever 0000\n", Ok(3)),
            Text(Start::Nothing, b"masks\npairs\n", Err(AssumeText::Order(2))),
            Text(Start::Nothing, b"masks\nmasks\n", Err(AssumeText::Order(2))),
            Text(
                Start::Nothing,
                b"jump 0000 0005\nmasks\n",
                Err(AssumeText::Order(2)),
            ),
            Text(
                Start::Nothing,
                b"masks 0000\n",
                Err(AssumeText::Malformed(1)),
            ),
            Text(Start::Nothing, b"mask\n", Err(AssumeText::Malformed(1))),
            Text(
                Start::Nothing,
                b"jump 0000 0005\npairs\n",
                Err(AssumeText::Order(2)),
            ),
            Text(
                Start::Nothing,
                b"pairs 0000\n",
                Err(AssumeText::Malformed(1)),
            ),
            Text(Start::Nothing, b"pairs \n", Err(AssumeText::Malformed(1))),
            Text(Start::Nothing, b"pair\n", Err(AssumeText::Malformed(1))),
            Text(
                Start::Nothing,
                b"free 0004 005D\n",
                Err(AssumeText::Malformed(1)),
            ),
            Text(Start::Nothing, b"never\n", Err(AssumeText::Malformed(1))),
            Text(
                Start::Nothing,
                b"frame 4000\n",
                Err(AssumeText::Malformed(1)),
            ),
            Text(
                Start::Nothing,
                b"frames 0004\n",
                Err(AssumeText::Malformed(1)),
            ),
            Text(
                Start::Nothing,
                b"jump 0004 0005\njump 0004 0005\n",
                Err(AssumeText::Order(2)),
            ),
            Text(
                Start::Nothing,
                b"store 0004 005D\njump 0004 0005\n",
                Err(AssumeText::Order(2)),
            ),
            Text(
                Start::Nothing,
                b"prove 0004\nstore 0004 005D\n",
                Err(AssumeText::Order(2)),
            ),
            Text(
                Start::Nothing,
                b"prove 0004\nprove 0003\nprove 0005",
                Err(AssumeText::Order(2)),
            ),
            Text(
                Start::Nothing,
                b"jump 0004 0005\njump 0004 0006\nx\n",
                Err(AssumeText::Order(2)),
            ),
            Text(
                Start::Nothing,
                b"prove 0004\nprove 003\n",
                Err(AssumeText::Malformed(2)),
            ),
            Text(Start::Nothing, b"\n", Err(AssumeText::Malformed(1))),
            Text(
                Start::Nothing,
                b"prove 0004\n\n",
                Err(AssumeText::Malformed(2)),
            ),
            Text(
                Start::Nothing,
                b"prove 0004\nprove 0005",
                Err(AssumeText::Malformed(2)),
            ),
            Text(
                Start::Nothing,
                b"jump 0004\n",
                Err(AssumeText::Malformed(1)),
            ),
            Text(
                Start::Nothing,
                b"store 0004\n",
                Err(AssumeText::Malformed(1)),
            ),
            Text(Start::Nothing, b"prove\n", Err(AssumeText::Malformed(1))),
            Text(
                Start::Nothing,
                b"prove 0004 0005\n",
                Err(AssumeText::Malformed(1)),
            ),
            Text(
                Start::Nothing,
                b"jump 000a 0005\n",
                Err(AssumeText::Malformed(1)),
            ),
            Text(
                Start::Nothing,
                b"jump 00004 0005\n",
                Err(AssumeText::Malformed(1)),
            ),
            Text(
                Start::Nothing,
                b"jump 0004 00005\n",
                Err(AssumeText::Malformed(1)),
            ),
            Text(
                Start::Nothing,
                b"prove 4000\n",
                Err(AssumeText::Malformed(1)),
            ),
            Text(
                Start::Nothing,
                b"jump 4000 0005\n",
                Err(AssumeText::Malformed(1)),
            ),
            Text(
                Start::Nothing,
                b"store 4000 005D\n",
                Err(AssumeText::Malformed(1)),
            ),
            Text(
                Start::Nothing,
                b"jump 0004 4000\n",
                Err(AssumeText::Malformed(1)),
            ),
            Text(
                Start::Nothing,
                b"store 0004 0020\n",
                Err(AssumeText::Malformed(1)),
            ),
            Text(
                Start::Nothing,
                b"store 0004 005D 0100\n",
                Err(AssumeText::Malformed(1)),
            ),
            Text(
                Start::Nothing,
                b"jump 0004 0005 0005\n",
                Err(AssumeText::Malformed(1)),
            ),
            Text(
                Start::Nothing,
                b"jump 0004 0006 0005\n",
                Err(AssumeText::Malformed(1)),
            ),
            Text(
                Start::Nothing,
                b"store 0004 005E 005D\n",
                Err(AssumeText::Malformed(1)),
            ),
            Text(
                Start::Nothing,
                b"jump 0004 0005 \n",
                Err(AssumeText::Malformed(1)),
            ),
            Text(
                Start::Nothing,
                b"jump  0004 0005\n",
                Err(AssumeText::Malformed(1)),
            ),
            Text(
                Start::Nothing,
                b" jump 0004 0005\n",
                Err(AssumeText::Malformed(1)),
            ),
            Text(
                Start::Nothing,
                b"JUMP 0004 0005\n",
                Err(AssumeText::Malformed(1)),
            ),
            Text(
                Start::Nothing,
                b"jump 0004 0005\r\n",
                Err(AssumeText::Malformed(1)),
            ),
            Text(
                Start::Nothing,
                b"jump 0004,0005\n",
                Err(AssumeText::Malformed(1)),
            ),
            Text(
                Start::Nothing,
                b"jump 0004 0005",
                Err(AssumeText::Malformed(1)),
            ),
        ],
    ),
    (
        "items",
        &[
            Text(Start::Items, b" 003F\n", Ok(1)),
            Text(Start::Items, b" 003F 0040\n", Err(AssumeText::Malformed(1))),
        ],
    ),
    (
        "line 4,097",
        &[
            Text(Start::Lines, b"", Ok(4_096)),
            Text(
                Start::Lines,
                b"prove 1000\n",
                Err(AssumeText::Malformed(4_097)),
            ),
            Text(
                Start::Lines,
                b"prove 0000\n",
                Err(AssumeText::Malformed(4_097)),
            ),
            Text(Start::Lines, b"x", Err(AssumeText::Malformed(4_097))),
        ],
    ),
];

// Writes a line of 63 items without its line feed.
fn write_items(out: &mut LineWriter) -> Result<(), AllocError> {
    out.word(b"jump")?;
    out.hex(0x0004, 4)?;
    for item in 0..63 {
        out.hex(item, 4)?;
    }
    Ok(())
}

// Writes the lines `prove 0000`, `prove 0001`, and on to the 4,096th.
fn write_proofs(out: &mut LineWriter) -> Result<(), AllocError> {
    for site in 0..4_096 {
        out.word(b"prove")?;
        out.hex(site, 4)?;
        out.end_line()?;
    }
    Ok(())
}

fn write_start(out: &mut LineWriter, start: &Start) -> Result<(), AllocError> {
    match start {
        Start::Nothing => Ok(()),
        Start::Items => write_items(out),
        Start::Lines => write_proofs(out),
    }
}

// Whether the list is written as it was read.
fn is_written(alloc: Global, list: &Assumptions, text: &[u8]) -> bool {
    let mut out = LineWriter::new(alloc);
    let written = write(Device::M328, list, &mut out).is_ok();
    written && out.finish().as_slice() == text
}

fn is_answer(alloc: Global, text: &[u8], due: &Result<usize, AssumeText>) -> bool {
    match read(alloc, Device::M328, text) {
        Ok(list) => is_written(alloc, &list, text) && *due == Ok(list.entries().len()),
        Err(fault) => *due == Err(fault),
    }
}

// Whether a text with more after it is answered as expected.
fn is_answer_behind(alloc: Global, text: &mut Vec<u8>, row: &Text) -> bool {
    let added = text.extend_from_slice(row.1).is_ok();
    added && is_answer(alloc, text.as_slice(), &row.2)
}

impl WorkedRow for Text {
    fn holds(&self, alloc: Global) -> bool {
        let mut out = LineWriter::new(alloc);
        let written = write_start(&mut out, &self.0).is_ok();
        let mut text = out.finish();
        written && is_answer_behind(alloc, &mut text, self)
    }
}

/// A line alone, without its line feed, and whether it is valid.
pub struct Alone(&'static [u8], bool);

pub static ALONE: [(&str, &[Alone]); 1] = [(
    "line alone",
    &[
        Alone(b"jump 0004 0005", true),
        Alone(b"jump 0004 0005\n", false),
    ],
)];

impl WorkedRow for Alone {
    fn holds(&self, alloc: Global) -> bool {
        match entry_of(alloc, Device::M328, self.0) {
            Ok(entry) => entry.is_some() == self.1,
            Err(_) => false,
        }
    }
}

/// Known bits and values of the low and the high byte of Z, and the words; none if there are too many.
pub struct Targets([u8; 4], Option<&'static [u32]>);

pub static TARGETS: [(&str, &[Targets]); 1] = [(
    "targets",
    &[
        Targets([0xFF, 0x34, 0xFF, 0x12], Some(&[0x1234])),
        Targets([0xFF, 0x34, 0xFF, 0xD2], Some(&[0x1234])),
        Targets([0xFF, 0x34, 0x3F, 0x12], Some(&[0x1234])),
        Targets(
            [0xFC, 0x00, 0xFF, 0x12],
            Some(&[0x1200, 0x1201, 0x1202, 0x1203]),
        ),
        Targets(
            [0xFE, 0x04, 0xDF, 0x01],
            Some(&[0x0104, 0x0105, 0x2104, 0x2105]),
        ),
        Targets(
            [0x7F, 0x04, 0xFE, 0x00],
            Some(&[0x0004, 0x0084, 0x0104, 0x0184]),
        ),
        Targets([0x80, 0x00, 0xFF, 0x00], None),
        Targets([0x00, 0x00, 0x00, 0x00], None),
    ],
)];

impl WorkedRow for Targets {
    // The words are the expected ones, or there are too many if none are given.
    fn holds(&self, _alloc: Global) -> bool {
        let low = TriByte::new(self.0[0], self.0[1]);
        let high = TriByte::new(self.0[2], self.0[3]);
        match targets(Device::M328, &low, &high, &TriByte::of(0)) {
            Ok(words) => self.1 == Some(words.as_slice()),
            Err(_) => self.1.is_none(),
        }
    }
}

/// Whether six unknown bits give 64 targets.
pub fn are_sixty_four() -> bool {
    match targets(
        Device::M328,
        &TriByte::new(0xC0, 0x40),
        &TriByte::of(0x01),
        &TriByte::of(0),
    ) {
        Ok(targets) => {
            let words = targets.as_slice();
            words.len() == 64 && (words[0], words[63]) == (0x0140, 0x017F)
        }
        Err(_) => false,
    }
}
