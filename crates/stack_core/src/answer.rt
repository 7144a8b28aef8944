//! The answer to the words of the command line, before it is written.
ghost use Rattle.stack_core.specs.Reading.{UnreadReply, reported};
ghost use Rattle.stack_core.specs.Answer.{GivesOutcome};
ghost use Rattle.stack_core.specs.Clauses.{Returns, called};

use crate::reading::{Unread, gather};
use crate::reply::Reply;
use crate::work::work;
use commands::command_of;
use replies::laws::replies_are_claims;
use replies::status::Status;
use replies::texts;
use std::alloc::{AllocError, Global};
use text_base::Files;

// The reply to a file that is too long or could not be read.
fn unread_reply(alloc: Global, unread: &Unread<'_>) -> Result<Reply, AllocError>
    ensures { Returns result (UnreadReply unread.now) }
{
    match *unread {
        Unread::Long(name) => Ok(Reply {
            status: Status::TooLong,
            text: texts::too_long(alloc, name)?,
        }),
        Unread::Failed(name) => Ok(Reply {
            status: Status::ReadFault,
            text: texts::read_fault(alloc, name)?,
        }),
        Unread::Memory => Err(AllocError),
    }
}

/// The answer to the words of the command line.
pub fn answer<F: Files>(alloc: Global, words: &[&str], files: &mut F) -> Result<Reply, AllocError>
    ensures { GivesOutcome (reported F.holds F.faults F.blamed files.old files.new) (called words.now) result }
{
    replies_are_claims();
    match command_of(alloc, words) {
        Ok(Some(command)) => match gather(alloc, files, &command) {
            Ok(read) => work(
                alloc,
                &command,
                &read.firmware,
                &read.second,
                &read.assumptions,
            ),
            Err(unread) => unread_reply(alloc, &unread),
        },
        Ok(None) => Ok(Reply {
            status: Status::Usage,
            text: texts::usage(alloc)?,
        }),
        Err(fault) => Err(fault),
    }
}
