// Making a commit message: what the committer sends when its vault has answered.
ghost use Rattle.std.specs.Prelude.{vec_items};
ghost use Rattle.messages.specs.Compose.{ComposedIsTaken, Composes, Makes};
ghost use Rattle.messages.specs.Message.{message_of};

use crate::handset::{Handset, accept};
use crate::message::{CommitMessage, MessageChange};
use crate::write::write_message;
use commits::{Commit, CommitError, Epoch, Refusal, verdict};
use ratchet_tree::PublicKey;
use std::alloc::Global;
use wire::write_all;

// What a vault gave for a commit, in its order: the public halves of the new leaf key and of the node keys from below,
// and the boxes, 48 bytes each, the welcome box last.
#[derive(Clone, Copy)]
pub struct VaultAnswers<'a> {
    pub halves: &'a [PublicKey],
    pub boxes: &'a [u8],
}

// The bytes of a message, where its maker's own handset takes it.
fn make(alloc: Global, handset: &Handset, message: CommitMessage) -> Result<Vec<u8>, CommitError>
    ensures { Makes vec_items handset.now (message_of message.entry) result }
{
    accept(alloc, handset, message)?;
    let mut out = Vec::new(alloc);
    write_message(&mut out, &message)?;
    Ok(out)
}

// The bytes of the message that commits a change for the next epoch, made by this handset's member; or why there is none.
// Whom the commit concerns takes them: `taken`.
pub fn compose(
    alloc: Global,
    handset: &Handset,
    change: MessageChange,
    answers: VaultAnswers,
) -> Result<Vec<u8>, CommitError>
    ensures bytes { Composes vec_items handset.now change answers.entry.halves.now answers.entry.boxes.now result }
    ensures taken { ComposedIsTaken }
{
    // two fields put together, as where a committer's orders are asked for
    let commit = Commit {
        committer: handset.member,
        change: change.asked(),
    };
    // the refusal is what may be there, so a `?` would end the other way
    if let Some(refusal) = verdict(&handset.tree, handset.epoch, commit) {
        return Err(CommitError::Refused(refusal));
    }
    let (leaf_key, others) = answers.halves.split_first().ok_or(Refusal::WrongCounts)?;
    let mut node_keys = Vec::new(alloc);
    write_all(&mut node_keys, others)?;
    let message = CommitMessage {
        // there is a next one, since `verdict` refuses the last
        epoch: Epoch(handset.epoch.0 + 1),
        committer: handset.member,
        change,
        leaf_key: *leaf_key,
        node_keys: &node_keys,
        boxes: answers.boxes,
    };
    make(alloc, handset, message)
}
