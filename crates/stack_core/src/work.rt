//! The answer by the contents of a command's files.

ghost use Rattle.std.specs.Prelude.{◌≡◌, IfOk};
ghost use Rattle.commands.specs.Views.{command_seen, work_seen};
ghost use Rattle.replies.specs.declared.status.Status.TheVariants as exit;
ghost use Rattle.replies.specs.Reply.{WorkReply};
ghost use Rattle.replies.specs.Headline.{HasWords};
ghost use Rattle.stack_core.specs.Reading.{bytes_of};
ghost use Rattle.stack_core.specs.Answering.{LoadedReply};
ghost use Rattle.stack_core.specs.Clauses.{Returns};

use crate::analysing::{analyse, demo};
use crate::attaining::attain;
use crate::clearing::{clear, premises};
use crate::explaining::explain;
use crate::judging::{check, report};
use crate::loading::{Prepared, prepare};
use crate::reply::Reply;
use crate::running::run;
use crate::simulating::simulate;
use commands::{Command, Request, Work, about_text};
use elf_load::Loaded;
use family_edges::Task;
use local_rules::laws::words_have_16_bits;
use replies::laws::same_names_give_same_places;
use replies::status::Status;
use reports::laws::same_names_give_same_reports;
use std::alloc::{AllocError, Global};
use vector_table::Assumptions;

// The answer for a loaded firmware and a list.
fn on_flash(
    alloc: Global,
    request: &Request<'_>,
    loaded: &Loaded,
    assumptions: &Assumptions,
    second: &[u8],
) -> Result<Reply, AllocError>
    ensures { Returns result (LoadedReply request.now.device (work_seen request.now.work) loaded.now second.now assumptions.now) }
{
    let flash = &loaded.flash;
    let task = Task {
        alloc,
        flash,
        assumptions,
    };
    match &request.work {
        Work::Check { .. } => check(&task, second),
        Work::Analyse { steps } => analyse(&task, *steps),
        Work::Run { .. } => run(&task, second),
        Work::Report { json, .. } => report(&task, second, request.device, loaded, *json),
        Work::Explain { .. } => explain(&task, second, &loaded.names),
        Work::Clear { .. } => clear(alloc, flash, second),
        Work::Premises { why, .. } => premises(&task, second, &loaded.names, *why),
        Work::Attain { trials, .. } => attain(&task, second, *trials),
        Work::Simulate { steps, .. } => simulate(&task, *steps, second),
    }
}

/// The answer by the contents of a command's files.
pub fn work(
    alloc: Global,
    command: &Command<'_>,
    firmware: &[u8],
    second: &[u8],
    list: &Option<Vec<u8>>,
) -> Result<Reply, AllocError>
    ensures reply { Returns result (WorkReply (command_seen command.now) firmware.now second.now (bytes_of list.now)) }
    ensures words { IfOk result (λ r. r.status ≡ exit.Done → HasWords (command_seen command.now) firmware.now) }
{
    same_names_give_same_reports();
    same_names_give_same_places();
    match command {
        Command::On(request) => match prepare(alloc, request.device, firmware, list)? {
            Prepared::Ready(loaded, assumptions) => {
                words_have_16_bits(loaded.flash.words());
                on_flash(alloc, request, &loaded, &assumptions, second)
            }
            Prepared::Refused(reply) => Ok(reply),
        },
        Command::Demo { size } => demo(alloc, size),
        Command::About(topic) => Ok(Reply {
            status: Status::Done,
            text: about_text(alloc, *topic)?,
        }),
    }
}
