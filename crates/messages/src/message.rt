// What a commit message says.
ghost use Rattle.std.specs.Prelude.{◌≡◌};
ghost use Rattle.commits.specs.Commits.{change_of, commit_of};
ghost use Rattle.messages.specs.Errors.{unwritten};
ghost use Rattle.messages.specs.Message.{message_of};
ghost use Rattle.messages.specs.Take.{change_asked, commit_asked, fresh_key, is_newcomer};
ghost use Rattle.messages.specs.declared.message.WriteError.TheVariants as write_error;

use commits::{Change, Commit, CommitError, Epoch, Refusal};
use ratchet_tree::{MemberId, PublicKey};
use std::alloc::AllocError;

// What is asked, with the keys that a newcomer brings.
#[derive(Clone, Copy)]
pub enum MessageChange {
    Renew,
    Remove(MemberId),
    Add {
        member: MemberId,
        leaf_key: PublicKey,
        init_key: PublicKey,
    },
}

impl MessageChange {
    // What is asked of the group. A method and no From, since its name says what it answers.
    pub fn asked(self) -> Change
        ensures value { change_of result ≡ change_asked self }
    {
        match self {
            MessageChange::Renew => Change::Renew,
            MessageChange::Remove(member) => Change::Remove(member),
            MessageChange::Add { member, .. } => Change::Add(member),
        }
    }

    // Does this add the member?
    pub(crate) fn adds(self, member: MemberId) -> bool
        ensures { result ≡ is_newcomer member.0 self }
    {
        matches!(self, MessageChange::Add { member: newcomer, .. } if newcomer == member)
    }
}

// The node keys and the boxes are lent from the message's bytes: 32 bytes a key, from below, and 48 a box.
// They are plain bytes, since a message with a part of one can be asked about too, and is refused for its counts.
#[derive(Clone, Copy)]
pub struct CommitMessage<'a> {
    pub epoch: Epoch,
    pub committer: MemberId,
    pub change: MessageChange,
    pub leaf_key: PublicKey,
    pub node_keys: &'a [u8],
    pub boxes: &'a [u8],
}

impl CommitMessage<'_> {
    // The commit that this message is of.
    pub(crate) fn commit(self) -> Commit
        ensures { commit_of result ≡ commit_asked (message_of self.entry) }
    {
        Commit {
            committer: self.committer,
            change: self.change.asked(),
        }
    }

    // The newcomer's leaf key; the committer's stands in where nobody comes, and is not looked at.
    pub(crate) fn newcomer_key(self) -> PublicKey
        ensures { result ≡ fresh_key (message_of self.entry) }
    {
        match self.change {
            MessageChange::Add { leaf_key, .. } => leaf_key,
            MessageChange::Renew | MessageChange::Remove(_) => self.leaf_key,
        }
    }
}

// The bytes at the front that every message has: a change is said by its kind and by the member that is removed or added.
#[derive(Clone, Copy)]
pub struct Header {
    pub epoch: Epoch,
    pub committer: MemberId,
    pub change: Change,
}

#[derive(Clone, Copy, PartialEq, Eq, Debug)]
pub enum WriteError {
    // Too many parts for their count, or a part of one.
    DoesNotFit,
    OutOfMemory,
}

impl From<AllocError> for WriteError {
    ghost from_gives = { λ _ e. e ≡ write_error.OutOfMemory };

    fn from(_error: AllocError) -> WriteError {
        WriteError::OutOfMemory
    }
}

// A message whose parts cannot be counted is refused for its counts.
impl From<WriteError> for CommitError {
    ghost from_gives = { λ error e. e ≡ unwritten error };

    fn from(error: WriteError) -> CommitError {
        match error {
            WriteError::DoesNotFit => CommitError::Refused(Refusal::WrongCounts),
            WriteError::OutOfMemory => CommitError::OutOfMemory,
        }
    }
}
