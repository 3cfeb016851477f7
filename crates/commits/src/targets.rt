// Whom the committer seals to: on each level, the keys of the resolution of the path's other side.
ghost use Rattle.std.specs.Prelude.{◌≡◌, ◌≤◌, [], IfOk};
ghost use Rattle.theory.specs.Limits.{max_depth};
ghost use Rattle.ratchet_tree.specs.Parts.{part_tree};
ghost use Rattle.commits.specs.Targets.{SealsOther, SealsPath, Targets};

use ratchet_tree::{MemberId, Part, PublicKey, Sides, Split};
use std::alloc::{AllocError, Global};

// A key that is sealed to, and the level of the path secret that it is given.
#[derive(Clone, Copy)]
pub struct Target {
    pub key: PublicKey,
    pub level: usize,
}

// A path's targets from below, and how many levels it has.
#[derive(Drop)]
struct Sealed {
    targets: Vec<Target>,
    levels: usize,
}

impl Sealed {
    // No path yet.
    fn new(alloc: Global) -> Sealed
        ensures targets { result.targets.items ≡ [] }
        ensures levels { result.levels ≡ 0 }
    {
        Sealed {
            targets: Vec::new(alloc),
            levels: 0,
        }
    }

    // One parent more: the path is sealed to each key of the other side, and has a level more where there are any.
    fn climbed(mut self, alloc: Global, other: Part) -> Result<Sealed, AllocError>
        requires { self.levels ≤ max_depth }
        ensures { SealsOther self (part_tree other.entry) result }
    {
        let level = self.levels;
        let keys = other.resolution(alloc)?;
        self.targets
            .extend(keys.iter().map(|key| Target { key: *key, level }))?;
        self.levels += !keys.is_empty() as usize;
        Ok(self)
    }
}

// The member's path in a part, sealed.
fn seal_path(alloc: Global, part: Part, member: MemberId) -> Result<Sealed, AllocError>
    ensures { SealsPath member.0 (part_tree part.entry) result }
{
    match part.split() {
        Split::Leaf(_) => Ok(Sealed::new(alloc)),
        Split::Parent(left, _, right) => match Sides::of(left, right, member) {
            Some(sides) => seal_path(alloc, sides.own, member)?.climbed(alloc, sides.other),
            None => Ok(Sealed::new(alloc)),
        },
    }
}

// The targets of the committer's path in a part, from below.
pub fn path_targets(
    alloc: Global,
    part: Part,
    committer: MemberId,
) -> Result<Vec<Target>, AllocError>
    ensures value { IfOk result (λ v. Targets committer.0 (part_tree part.entry) v.items) }
{
    Ok(seal_path(alloc, part, committer)?.targets)
}
