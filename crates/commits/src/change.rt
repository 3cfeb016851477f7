// What a commit asks for.
ghost use Rattle.std.specs.Prelude.{◌≡◌};
ghost use Rattle.commits.specs.Apply.{welcomes};
ghost use Rattle.commits.specs.Commits.{change_of};

use crate::limits::LAST_EPOCH;
use ratchet_tree::MemberId;

// What is asked, besides the committer's own new keys.
#[derive(Clone, Copy, PartialEq, Eq, Debug)]
pub enum Change {
    Renew,
    Remove(MemberId),
    Add(MemberId),
}

impl Change {
    // How many boxes are for newcomers: one is also sent the epoch's secret.
    pub(crate) fn welcomes(self) -> usize
        ensures { result ≡ welcomes (change_of self) }
    {
        matches!(self, Change::Add(_)) as usize
    }
}

// A change and the member that makes it.
#[derive(Clone, Copy, PartialEq, Eq, Debug)]
pub struct Commit {
    pub committer: MemberId,
    pub change: Change,
}

// How many commits a group has taken since its founding.
#[derive(Clone, Copy, PartialEq, Eq, PartialOrd, Ord, Debug)]
pub struct Epoch(pub u32);

impl Epoch {
    // The epoch after which there is no other.
    pub const LAST: Epoch = Epoch(LAST_EPOCH);
}
