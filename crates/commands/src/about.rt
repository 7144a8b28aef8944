//! What the program says of itself.

ghost use Rattle.std.specs.Prelude.{◌≡◌, ◌++◌, IfOk, OnOk, map};
ghost use Rattle.commands.specs.About.{about_text, lined};

use crate::command::Topic;
use std::alloc::{AllocError, Global};

static VERSION: [&str; 1] = ["stackbound 0.10.0"];

static HELP: [&str; 16] = [
    "usage: stackbound COMMAND WORD ..",
    "",
    "  analyse FW                 writes the certificate with the smallest bound, or the reason why there is none",
    "  check FW CERT              validates a certificate and prints its bound",
    "  report FW CERT             prints the needs of each function",
    "  explain FW CERT            prints the deepest chain of calls and interrupts",
    "  premises FW CERT           lists the places where a step may be flagged",
    "  clear FW CERT              says whether there is no such place",
    "  attain FW CERT             looks for a run that is as deep as the bound",
    "  run FW SCHEDULE            replays a schedule",
    "  simulate FW PERIPHERALS    runs the firmware with timers and receivers",
    "  demo N                     analyses a firmware made from a number",
    "",
    "FW is an ELF file or a raw image of a chip's flash. Options: --assume LIST, --device NAME; --steps N (analyse, simulate);",
    "--trials N (attain); --json (report); --why (premises). Formats and statuses: docs/FORMATS.md. In a build:",
    "tools/stackcheck, docs/BUILDS.md.",
];

// Appends these lines.
fn put_lines(text: &mut Vec<u8>, lines: &[&str]) -> Result<(), AllocError>
    ensures { OnOk result (text.new.items ≡ text.old.items ++ lined (map (λ line. line.now) lines.now)) }
{
    match lines {
        [] => Ok(()),
        [line, rest @ ..] => {
            text.extend_from_slice(line.as_bytes())?;
            text.push(b'\n')?;
            put_lines(text, rest)
        }
    }
}

/// The text on a topic. Fails if memory runs out.
pub fn about_text(alloc: Global, topic: Topic) -> Result<Vec<u8>, AllocError>
    ensures { IfOk result (λ text. text.items ≡ about_text topic) }
{
    let mut text = Vec::new(alloc);
    match topic {
        Topic::Help => put_lines(&mut text, &HELP)?,
        Topic::Version => put_lines(&mut text, &VERSION)?,
    }
    Ok(text)
}
