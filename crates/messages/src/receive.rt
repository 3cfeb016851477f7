// A handset takes a message from its bytes: all of them are read before anything is judged.
ghost use Rattle.messages.specs.Received.{TakesBytes};
ghost use Rattle.messages.specs.Runs.{RunsOfLetters};

use crate::handset::{Handset, take_message};
use crate::message::CommitMessage;
use crate::read::read_message;
use commits::{CommitError, Refusal};
use std::alloc::Global;

// The message that was taken; or why not, and then the handset is as it was.
// What comes of it over every run of letters, and which talk secrets stay secret then, is `runs`.
pub fn take<'a>(
    alloc: Global,
    handset: &mut Handset,
    bytes: &'a [u8],
) -> Result<CommitMessage<'a>, CommitError>
    ensures tree { TakesBytes handset.old bytes.now handset.new result }
    ensures runs { RunsOfLetters }
{
    // by a rule of the project the reader's answer is taken apart here, and the refusal returned
    let Ok(message) = read_message(bytes) else {
        return Err(CommitError::Refused(Refusal::Malformed));
    };
    take_message(alloc, handset, message)?;
    Ok(message)
}
