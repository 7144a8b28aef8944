//! The words after a command's name.

ghost use Rattle.std.specs.Prelude.{◌≡◌};
ghost use Rattle.commands.specs.Commands.{fits, permits_numbers, permits_marks, permits};
ghost use Rattle.commands.specs.Views.{line_of};

/// The names in their order, and the options with their values.
#[derive(Clone, Copy)]
pub struct CommandLine<'a> {
    pub first: Option<&'a str>,
    pub second: Option<&'a str>,
    pub assume: Option<&'a str>,
    pub steps: Option<&'a str>,
    pub device: Option<&'a str>,
    pub trials: Option<&'a str>,
    pub json: bool,
    pub why: bool,
}

/// The options that a command may have.
#[derive(Clone, Copy)]
pub struct Permitted {
    pub assume: bool,
    pub steps: bool,
    pub device: bool,
    pub trials: bool,
    pub json: bool,
    pub why: bool,
}

// Whether an option stands only if it is permitted.
fn fits(permitted: bool, stands: bool) -> bool
    ensures { result ≡ fits permitted stands }
{
    permitted || !stands
}

impl Permitted {
    // Whether the line has no other options that take a number.
    fn permits_numbers(&self, line: &CommandLine<'_>) -> bool
        ensures { result ≡ permits_numbers self.now (line_of line.now) }
    {
        fits(self.steps, line.steps.is_some()) && fits(self.trials, line.trials.is_some())
    }

    // Whether the line has no other options without a value.
    fn permits_marks(&self, line: &CommandLine<'_>) -> bool
        ensures { result ≡ permits_marks self.now (line_of line.now) }
    {
        fits(self.json, line.json) && fits(self.why, line.why)
    }

    // Whether the line has no other options.
    pub(crate) fn permits(&self, line: &CommandLine<'_>) -> bool
        ensures { result ≡ permits self.now (line_of line.now) }
    {
        let assume = fits(self.assume, line.assume.is_some());
        let device = fits(self.device, line.device.is_some());
        let numbers = self.permits_numbers(line);
        let marks = self.permits_marks(line);
        assume && device && numbers && marks
    }
}
