//! Texts and the positions of refusals. Offsets are counted by hand. Replays are in tests/end_to_end.

use avr_model::choice::Choice;
use avr_model::device::Device;
use row_tests::WorkedRow;
use std::alloc::Global;
use text_base::{LineReader, LineWriter};
use witness_replay::{Schedule, ScheduleFault};

/// A text with the position after its schedule, or the offset of the refused line.
pub struct Text(&'static [u8], Result<usize, usize>);

pub static TEXTS: [(&str, &[Text]); 1] = [(
    "schedule",
    &[
        Text(b"schedule 1\nfill 00\ngo 4 00 00\ntake 2 0\nend\n", Ok(43)),
        Text(b"schedule 1\nfill FF\nend\n", Ok(23)),
        Text(
            b"schedule 1\nfill 00\ngo 1 00 00\ngo 1 00 01\nend\n",
            Ok(45),
        ),
        Text(
            b"schedule 1\nfill 00\ngo 1 00 00\ntake 26 1\ngo 1 00 00\nend\n",
            Ok(55),
        ),
        Text(
            b"schedule 1\nfill 00\ngo 16777215 0A 00\ntake 7 1\nend\n",
            Ok(50),
        ),
        Text(b"schedule 1\nfill 00\nend\nend\n", Ok(23)),
        Text(b"schedule 1\nfill 00\nend\ngo 04 00 00", Ok(23)),
        Text(b"", Err(0)),
        Text(b"schedule 2\nfill 00\nend\n", Err(0)),
        Text(b"schedule  1\nfill 00\nend\n", Err(0)),
        Text(b"schedule 1\r\nfill 00\nend\n", Err(0)),
        Text(b"schedule 1\n", Err(11)),
        Text(b"schedule 1\nfill ff\nend\n", Err(11)),
        Text(b"schedule 1\nfill 0\nend\n", Err(11)),
        Text(b"schedule 1\nend\n", Err(11)),
        Text(b"schedule 1\nfill 00\n", Err(19)),
        Text(b"schedule 1\nfill 00\nend", Err(19)),
        Text(b"schedule 1\nfill 00\nend \n", Err(19)),
        Text(b"schedule 1\nfill 00\ngo 04 00 00\nend\n", Err(19)),
        Text(b"schedule 1\nfill 00\ngo 0 00 00\nend\n", Err(19)),
        Text(b"schedule 1\nfill 00\ngo 1 0a 00\nend\n", Err(19)),
        Text(b"schedule 1\nfill 00\ngo  1 00 00\nend\n", Err(19)),
        Text(b"schedule 1\nfill 00\ngo 1 00 00 \nend\n", Err(19)),
        Text(b"schedule 1\nfill 00\ngo 16777217 00 00\nend\n", Err(19)),
        Text(b"schedule 1\nfill 00\ntake 1 0\nend\n", Err(19)),
        Text(b"schedule 1\nfill 00\ntake 27 0\nend\n", Err(19)),
        Text(b"schedule 1\nfill 00\ntake 2 2\nend\n", Err(19)),
        Text(
            b"schedule 1\nfill 00\ngo 1 00 00\ngo 2 00 00\nend\n",
            Err(30),
        ),
        Text(b"schedule 1\nfill 00\ngo 1 00 00\n", Err(30)),
        Text(
            b"schedule 1\nfill 00\ngo 16777216 00 00\ntake 2 0\nend\n",
            Err(37),
        ),
    ],
)];

// Whether the schedule is written as this many bytes of the text.
fn is_written(alloc: Global, schedule: &Schedule, text: &[u8], end: usize) -> bool {
    let mut out = LineWriter::new(alloc);
    let is_written = schedule.write(&mut out).is_ok();
    let written = out.finish();
    is_written && written.len() == end && text.starts_with(&written)
}

// Whether the reader is after the schedule, or at the refused line.
fn is_read(alloc: Global, reader: &mut LineReader<'_>, row: &Text) -> bool {
    match (Schedule::read(alloc, Device::M328, reader), row.1) {
        (Ok(schedule), Ok(end)) => {
            reader.offset() == end && is_written(alloc, &schedule, row.0, end)
        }
        (Err(ScheduleFault::Malformed(at)), Err(due)) => at == due && reader.offset() == due,
        _ => false,
    }
}

impl WorkedRow for Text {
    fn holds(&self, alloc: Global) -> bool {
        let mut reader = LineReader::new(self.0);
        is_read(alloc, &mut reader, self)
    }
}

/// Whether a schedule within a text is refused by offsets of the whole.
pub fn is_within(alloc: Global) -> bool {
    let mut reader = LineReader::new(b"first\nschedule 1\nfill 7F\ngo 0 00 00\nend\n");
    reader.next();
    let answer = Schedule::read(alloc, Device::M328, &mut reader);
    answer.err() == Some(ScheduleFault::Malformed(25)) && reader.offset() == 25
}

// Equal choices in a row, which are one run.
static CHOICES: [Choice; 7] = [
    Choice::Go(0, 0),
    Choice::Go(0, 0),
    Choice::Go(0, 1),
    Choice::Take(26, true),
    Choice::Take(26, true),
    Choice::Go(0, 1),
    Choice::Go(0, 1),
];

const RUNS: &[u8] =
    b"schedule 1\nfill 5A\ngo 2 00 00\ngo 1 00 01\ntake 26 1\ntake 26 1\ngo 2 00 01\nend\n";

fn is_run(alloc: Global, schedule: &Schedule) -> bool {
    let mut out = LineWriter::new(alloc);
    let written = schedule.write(&mut out).is_ok();
    written && out.finish().as_slice() == RUNS
}

/// Whether equal choices in a row become runs.
pub fn are_runs(alloc: Global) -> bool {
    match Schedule::from_trace(alloc, Device::M328, 0x5A, &CHOICES) {
        Ok(schedule) => is_run(alloc, &schedule),
        Err(_) => false,
    }
}
