//! The command of a name and a line.

ghost use Rattle.std.specs.Prelude.{◌≡◌};
ghost use Rattle.std.specs.Option.{option_map};
ghost use Rattle.commands.specs.Commands.{steps_in, choices_in, trials_in, size_in, device_in, asks, paired, work_in, called};
ghost use Rattle.commands.specs.Views.{text_of, line_of, command_seen, work_seen};

use crate::command::{Command, Request, Work};
use crate::line::{CommandLine, Permitted};
use crate::size::{ChoiceCount, Size};
use avr_model::device::Device;
use avr_model::naming::device_named;
use text_base::read_dec;

// The options of `demo`, of `clear`, of most works, and of those with one more.
const NO_OPTIONS: Permitted = Permitted {
    assume: false,
    steps: false,
    device: false,
    trials: false,
    json: false,
    why: false,
};

const DEVICE: Permitted = Permitted {
    device: true,
    ..NO_OPTIONS
};

const PLAIN: Permitted = Permitted {
    assume: true,
    ..DEVICE
};

const STEPS: Permitted = Permitted {
    steps: true,
    ..PLAIN
};

const TRIALS: Permitted = Permitted {
    trials: true,
    ..PLAIN
};

const JSON: Permitted = Permitted {
    json: true,
    ..PLAIN
};

const WHY: Permitted = Permitted { why: true, ..PLAIN };

// The limit on rounds, if given.
fn steps_in(word: Option<&str>) -> Option<Option<u64>>
    ensures { result ≡ steps_in (text_of word.entry) }
{
    match word {
        Some(word) => match read_dec(word.as_bytes(), u64::MAX) {
            Ok(steps) => Some(Some(steps)),
            Err(_) => None,
        },
        None => Some(None),
    }
}

// The number of choices of a simulated run: 200,000 by default, at most 16,777,216.
fn choices_in(word: Option<&str>) -> Option<ChoiceCount>
    ensures { result ≡ choices_in (text_of word.entry) }
{
    match steps_in(word)? {
        Some(steps) => {
            if steps <= 16_777_216 {
                Some(ChoiceCount::new(steps as u32))
            } else {
                Some(ChoiceCount::new(16_777_216))
            }
        }
        None => Some(ChoiceCount::new(200_000)),
    }
}

// The number of trials: 64 by default, at most 65,536.
fn trials_in(word: Option<&str>) -> Option<u32>
    ensures { result ≡ trials_in (text_of word.entry) }
{
    match word {
        Some(word) => match read_dec(word.as_bytes(), 65_536) {
            Ok(trials) => Some(trials as u32),
            Err(_) => None,
        },
        None => Some(64),
    }
}

// The size of an image.
fn size_in(word: &str) -> Option<Size>
    ensures { result ≡ size_in word.now }
{
    match read_dec(word.as_bytes(), 2000) {
        Ok(count) => {
            if count >= 1 {
                Some(Size::new(count as u32))
            } else {
                None
            }
        }
        Err(_) => None,
    }
}

// The device of a name, if given; the ATmega328P by default.
fn device_in(word: Option<&str>) -> Option<Device>
    ensures { result ≡ device_in (text_of word.entry) }
{
    match word {
        Some(word) => device_named(word.as_bytes()),
        None => Some(Device::M328),
    }
}

// Whether the word is this name, and the line has no options but these.
fn asks(word: &str, line: &CommandLine<'_>, name: &str, options: &Permitted) -> bool
    ensures { result ≡ asks word.now (line_of line.now) name.now options.now }
{
    word == name && options.permits(line)
}

// The work of this name with a second file.
fn paired<'a>(word: &str, line: &CommandLine<'a>, second: &'a str) -> Option<Work<'a>>
    ensures { option_map work_seen result ≡ paired word.now (line_of line.now) second.entry.now }
{
    let certificate = second;
    if asks(word, line, "check", &PLAIN) {
        Some(Work::Check { certificate })
    } else if asks(word, line, "run", &PLAIN) {
        Some(Work::Run { schedule: second })
    } else if asks(word, line, "report", &JSON) {
        let json = line.json;
        Some(Work::Report { certificate, json })
    } else if asks(word, line, "explain", &PLAIN) {
        Some(Work::Explain { certificate })
    } else if asks(word, line, "clear", &DEVICE) {
        Some(Work::Clear { certificate })
    } else if asks(word, line, "premises", &WHY) {
        let why = line.why;
        Some(Work::Premises { certificate, why })
    } else if asks(word, line, "attain", &TRIALS) {
        let trials = trials_in(line.trials)?;
        Some(Work::Attain {
            certificate,
            trials,
        })
    } else if asks(word, line, "simulate", &STEPS) {
        let steps = choices_in(line.steps)?;
        let peripherals = second;
        Some(Work::Simulate { peripherals, steps })
    } else {
        None
    }
}

// The work of this name.
fn work_in<'a>(word: &str, line: &CommandLine<'a>) -> Option<Work<'a>>
    ensures { option_map work_seen result ≡ work_in word.now (line_of line.now) (text_of line.now.second) }
{
    match line.second {
        Some(second) => paired(word, line, second),
        None if asks(word, line, "analyse", &STEPS) => {
            let steps = steps_in(line.steps)?;
            Some(Work::Analyse { steps })
        }
        None => None,
    }
}

/// The command of this name whose further words are this line, if it is one. Each option stands only if the command has it.
pub(crate) fn called<'a>(word: &str, line: CommandLine<'a>) -> Option<Command<'a>>
    ensures { option_map command_seen result ≡ called word.now (line_of line.entry) }
{
    if asks(word, &line, "demo", &NO_OPTIONS) {
        return match line.second {
            Some(_) => None,
            None => Some(Command::Demo {
                size: size_in(line.first?)?,
            }),
        };
    }
    let device = device_in(line.device)?;
    let firmware = line.first?;
    let assume = line.assume;
    match work_in(word, &line) {
        Some(work) => Some(Command::On(Request {
            device,
            firmware,
            assume,
            work,
        })),
        None => None,
    }
}
