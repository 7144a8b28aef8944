//! The commands.

ghost use Rattle.std.specs.Prelude.{◌≡◌};
ghost use Rattle.commands.specs.Commands.{Firmware, Second, Assumptions, device_for, file_of, name_of};
ghost use Rattle.commands.specs.Views.{text_of, command_seen, work_seen};

use crate::size::{ChoiceCount, Size};
use avr_model::device::Device;

/// The work of a request, with the name of its second file and its own options.
#[derive(Clone, Copy)]
pub enum Work<'a> {
    /// Judges a certificate for a firmware.
    Check {
        certificate: &'a str,
    },
    /// Writes the least certificate of a firmware, if the rounds end within this many steps.
    Analyse {
        steps: Option<u64>,
    },
    /// Replays a schedule on a firmware.
    Run {
        schedule: &'a str,
    },
    /// Judges a certificate for a firmware, and reports needs, in lines or as JSON.
    Report {
        certificate: &'a str,
        json: bool,
    },
    /// Judges a certificate for a firmware, and prints the origin of its bound.
    Explain {
        certificate: &'a str,
    },
    /// Judges a certificate for a firmware, and prints whether no step can be flagged. It has no assumption file.
    Clear {
        certificate: &'a str,
    },
    /// Judges a certificate for a firmware, and prints the words at which a step may be flagged, also with causes.
    Premises {
        certificate: &'a str,
        why: bool,
    },
    /// Judges a certificate for a firmware, and writes it, with the schedule of a guided trial if it has none.
    Attain {
        certificate: &'a str,
        trials: u32,
    },
    /// Runs a firmware with timers and receivers, for at most this many choices.
    Simulate {
        peripherals: &'a str,
        steps: ChoiceCount,
    },
}

impl<'a> Work<'a> {
    /// The name of the second file: certificate, schedule or peripherals.
    pub fn file(&self) -> Option<&'a str>
        ensures { text_of result ≡ file_of (work_seen self.now) }
    {
        match *self {
            Work::Check { certificate }
            | Work::Report { certificate, .. }
            | Work::Explain { certificate }
            | Work::Clear { certificate }
            | Work::Premises { certificate, .. }
            | Work::Attain { certificate, .. } => Some(certificate),
            Work::Run { schedule } => Some(schedule),
            Work::Simulate { peripherals, .. } => Some(peripherals),
            Work::Analyse { .. } => None,
        }
    }
}

/// Work on a firmware for a device, with the names of the firmware and of the assumption file.
#[derive(Clone, Copy)]
pub struct Request<'a> {
    pub device: Device,
    pub firmware: &'a str,
    pub assume: Option<&'a str>,
    pub work: Work<'a>,
}

/// What is said of the program itself.
#[derive(Clone, Copy)]
pub enum Topic {
    /// Its commands, and where the documents are.
    Help,
    /// Its version.
    Version,
}

/// What the program does.
#[derive(Clone, Copy)]
pub enum Command<'a> {
    /// Works on a firmware.
    On(Request<'a>),
    /// Measures the analysis by the image of this size.
    Demo { size: Size },
    /// Says what the program is.
    About(Topic),
}

impl<'a> Command<'a> {
    /// The device of the firmware.
    pub fn device(&self) -> Device
        ensures { result ≡ device_for (command_seen self.now) }
    {
        match self {
            Command::On(request) => request.device,
            Command::Demo { .. } | Command::About(_) => Device::M328,
        }
    }

    /// The name of the firmware, which is read first.
    pub fn firmware(&self) -> Option<&'a str>
        ensures { name_of (command_seen self.now) Firmware ≡ text_of result }
    {
        match self {
            Command::On(request) => Some(request.firmware),
            Command::Demo { .. } | Command::About(_) => None,
        }
    }

    /// The name of the second file: certificate, schedule or peripherals.
    pub fn second(&self) -> Option<&'a str>
        ensures { name_of (command_seen self.now) Second ≡ text_of result }
    {
        match self {
            Command::On(request) => request.work.file(),
            Command::Demo { .. } | Command::About(_) => None,
        }
    }

    /// The name of the assumption file, which is read last.
    pub fn assume(&self) -> Option<&'a str>
        ensures { name_of (command_seen self.now) Assumptions ≡ text_of result }
    {
        match self {
            Command::On(
                Request {
                    work: Work::Clear { .. },
                    ..
                },
            )
            | Command::Demo { .. }
            | Command::About(_) => None,
            Command::On(request) => request.assume,
        }
    }
}
