// A handset takes a message: the tree and the epoch that come of it, or a refusal that changes nothing.
ghost use Rattle.std.specs.Prelude.{◌≡◌};
ghost use Rattle.ratchet_tree.specs.Trees.{the_tree};
ghost use Rattle.messages.specs.Message.{message_of};
ghost use Rattle.messages.specs.Take.{Accepts, Takes, counts_match, is_stranger};

use crate::message::CommitMessage;
use commits::{CommitError, Counts, Epoch, PathKeys, Refusal, lay_path, message_counts, ready};
use ratchet_tree::{MemberId, RatchetTree};
use std::alloc::Global;
use wire::read_all;

// What a handset knows of its group; the keys are in its vault.
#[derive(Drop)]
pub struct Handset {
    pub member: MemberId,
    pub tree: RatchetTree,
    pub epoch: Epoch,
}

impl Handset {
    // Neither seated, nor added by this message.
    fn is_stranger(&self, message: CommitMessage) -> bool
        ensures { result ≡ is_stranger self.now.member.0 (the_tree self.now.tree) (message_of message.entry) }
    {
        !self.tree.as_part().is_seated(self.member) && !message.change.adds(self.member)
    }
}

// Has the message as many node keys and boxes as the rules give?
fn counts_agree(counts: Counts, message: CommitMessage) -> bool
    ensures { result ≡ counts_match counts.node_keys counts.boxes (message_of message.entry) }
{
    counts.node_keys == message.node_keys.len() / 32 && counts.boxes == message.boxes.len() / 48
}

// The tree that the message's path is laid on; or why the handset does not take the message. Handset and message stay two
// parameters here and in the calls above, which are public.
pub fn accept(
    alloc: Global,
    handset: &Handset,
    message: CommitMessage,
) -> Result<RatchetTree, CommitError>
    ensures tree { Accepts handset.now (message_of message.entry) result }
{
    if handset.epoch >= Epoch::LAST {
        return Err(CommitError::Refused(Refusal::LastEpoch));
    }
    // there is a next epoch, since the last was refused above
    if message.epoch != Epoch(handset.epoch.0 + 1) {
        return Err(CommitError::Refused(Refusal::WrongEpoch));
    }
    if handset.is_stranger(message) {
        return Err(CommitError::Refused(Refusal::NotSeated));
    }
    let commit = message.commit();
    let newcomer = message.newcomer_key();
    let next = ready(alloc, &handset.tree, handset.epoch, commit, newcomer)?;
    if !counts_agree(message_counts(&next, commit), message) {
        return Err(CommitError::Refused(Refusal::WrongCounts));
    }
    Ok(next)
}

pub fn take_message(
    alloc: Global,
    handset: &mut Handset,
    message: CommitMessage,
) -> Result<(), CommitError>
    ensures tree { Takes handset.old (message_of message.entry) handset.new result }
{
    let mut next = accept(alloc, handset, message)?;
    let nodes = read_all(alloc, message.node_keys)?;
    let keys = PathKeys {
        leaf: message.leaf_key,
        nodes: &nodes,
    };
    lay_path(alloc, &mut next, message.committer, keys);
    handset.tree = next;
    handset.epoch = message.epoch;
    Ok(())
}
