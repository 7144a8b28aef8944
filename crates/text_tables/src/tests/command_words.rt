//! Words, and their commands.

use avr_model::device::Device;
use commands::{Command, Work, command_of};
use row_tests::WorkedRow;
use std::alloc::Global;

// The compared parts of a command: its name, the device, the second file, the assumption file, its number, and whether it answers as
// JSON.
type Told = (
    &'static str,
    Device,
    Option<&'static str>,
    Option<&'static str>,
    Option<u64>,
    bool,
);

/// Words, and their command.
pub struct Row(&'static [&'static str], Told);

pub static ROWS: [(&str, &[Row]); 1] = [(
    "command",
    &[
        Row(
            &["check", "--assume", "c", "a", "b"],
            ("check", Device::M328, Some("b"), Some("c"), None, false),
        ),
        Row(
            &["check", "a", "--assume", "c", "b"],
            ("check", Device::M328, Some("b"), Some("c"), None, false),
        ),
        Row(
            &["check", "a", "b", "--assume", "c"],
            ("check", Device::M328, Some("b"), Some("c"), None, false),
        ),
        Row(
            &["analyse", "a"],
            ("analyse", Device::M328, None, None, None, false),
        ),
        Row(
            &["analyse", "a", "--steps", "0"],
            ("analyse", Device::M328, None, None, Some(0), false),
        ),
        Row(
            &["analyse", "--steps", "18446744073709551615", "a"],
            ("analyse", Device::M328, None, None, Some(u64::MAX), false),
        ),
        Row(
            &["run", "a", "b"],
            ("run", Device::M328, Some("b"), None, None, false),
        ),
        Row(
            &["report", "a", "b"],
            ("report", Device::M328, Some("b"), None, None, false),
        ),
        Row(
            &["report", "--json", "a", "--assume", "c", "b"],
            ("report", Device::M328, Some("b"), Some("c"), None, true),
        ),
        Row(
            &["demo", "1"],
            ("demo", Device::M328, None, None, Some(1), false),
        ),
        Row(
            &["--help"],
            ("about", Device::M328, None, None, None, false),
        ),
        Row(
            &["--version"],
            ("about", Device::M328, None, None, None, false),
        ),
        Row(
            &["demo", "2000"],
            ("demo", Device::M328, None, None, Some(2000), false),
        ),
        Row(
            &["analyse", "a", "--device", "atmega328p"],
            ("analyse", Device::M328, None, None, None, false),
        ),
        Row(
            &["analyse", "--device", "atmega48pa", "a"],
            ("analyse", Device::M48, None, None, None, false),
        ),
        Row(
            &["analyse", "a", "--device", "atmega168"],
            ("analyse", Device::M168, None, None, None, false),
        ),
        Row(
            &["analyse", "a", "--device", "atmega168pa", "--steps", "0"],
            ("analyse", Device::M168, None, None, Some(0), false),
        ),
    ],
)];

/// Words that are no command.
pub struct Refused(&'static [&'static str]);

pub static REFUSED: [(&str, &[Refused]); 1] = [(
    "no command",
    &[
        Refused(&["analyse", "a", "--device", "atmega4809"]),
        Refused(&["analyse", "a", "--device", "ATmega328P"]),
        Refused(&["demo", "1", "--device", "atmega88pa"]),
        Refused(&[
            "check",
            "a",
            "b",
            "--device",
            "atmega88pa",
            "--device",
            "atmega88pa",
        ]),
        Refused(&[]),
        Refused(&["help"]),
        Refused(&["--help", "check"]),
        Refused(&["check", "--version"]),
        Refused(&["check", "a"]),
        Refused(&["check", "a", "b", "c"]),
        Refused(&["check", "a", "--assume", "c", "--assume", "c", "b"]),
        Refused(&["check", "a", "b", "--assume"]),
        Refused(&["check", "a", ""]),
        Refused(&["check", "--", "a", "b"]),
        Refused(&["analyse", "--steps", "01", "a"]),
        Refused(&["analyse", "--steps", "18446744073709551616", "a"]),
        Refused(&["analyse", "-x"]),
        Refused(&["analyse", "a", "b"]),
        Refused(&["analyse", "a", "--json"]),
        Refused(&["run", "a", "b", "--steps", "1"]),
        Refused(&["report", "a", "b", "--json", "--json"]),
        Refused(&["demo", "0"]),
        Refused(&["demo", "2001"]),
    ],
)];

// A work's name and its number; works without a row have none.
fn named(work: &Work<'_>) -> (&'static str, Option<u64>) {
    match work {
        Work::Check { .. } => ("check", None),
        Work::Analyse { steps } => ("analyse", *steps),
        Work::Run { .. } => ("run", None),
        Work::Report { .. } => ("report", None),
        _ => ("", None),
    }
}

// A command's name, its number, and whether it answers as JSON.
fn told_of(command: &Command<'_>) -> (&'static str, Option<u64>, bool) {
    match command {
        Command::On(request) => {
            let (name, number) = named(&request.work);
            let json = matches!(request.work, Work::Report { json: true, .. });
            (name, number, json)
        }
        Command::Demo { size } => ("demo", Some(u64::from(size.get())), false),
        Command::About(_) => ("about", None, false),
    }
}

// Whether all but those without files have the firmware `a`.
fn has_firmware(command: &Command<'_>, name: &str) -> bool {
    match command.firmware() {
        Some(firmware) => firmware == "a",
        None => matches!(name, "demo" | "about"),
    }
}

fn is_told(command: &Command<'_>, told: &Told) -> bool {
    let (name, number, json) = told_of(command);
    let found = (
        name,
        command.device(),
        command.second(),
        command.assume(),
        number,
        json,
    );
    has_firmware(command, name) && found == *told
}

impl WorkedRow for Row {
    fn holds(&self, alloc: Global) -> bool {
        match command_of(alloc, self.0) {
            Ok(Some(command)) => is_told(&command, &self.1),
            _ => false,
        }
    }
}

impl WorkedRow for Refused {
    fn holds(&self, alloc: Global) -> bool {
        matches!(command_of(alloc, self.0), Ok(None))
    }
}
