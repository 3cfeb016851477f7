// The path, for the committer who lays it.
ghost use Rattle.std.specs.Prelude.{◌≡◌, true, ◌++◌, map};
ghost use Rattle.theory.specs.Path.{level_after};
ghost use Rattle.theory.specs.Tree.{resolution, seated};
ghost use Rattle.vault_theory.specs.Numbers.{levels};
ghost use Rattle.vault_theory.specs.Order.{seal};
ghost use Rattle.vault_theory.specs.Orders.{held_forgotten, made, sealed_up};
ghost use Rattle.ratchet_tree.specs.Nodes.{parent_of};
ghost use Rattle.ratchet_tree.specs.Parts.{part_tree};
ghost use Rattle.orders.specs.Given.{Gives, GivesTo};

use crate::height::Height;
use crate::held::forget_held;
use crate::order::{Order, Slot};
use crate::sides::sides_of;
use crate::slots::{key_slot, path_slot};
use crate::step::PathStep;
use ratchet_tree::{MemberId, Part, PublicKey, Split};
use std::alloc::{AllocError, Global};

// Seals what is in a slot to each of these keys, in their order.
fn seal_to(slot: Slot, keys: &[PublicKey], out: &mut Vec<Order>) -> Result<(), AllocError>
    ensures { Gives (map (seal slot.0) keys.now) out.old.items out.new.items result }
{
    for key in keys {
        out.push(Order::Seal {
            from: slot,
            key: *key,
        })?;
    }
    Ok(())
}

impl PathStep<'_> {
    // Seals the path secret to the path's other side and makes the node key; answers the level above. Nothing where
    // there is nobody on the other side.
    fn seal_up(self, alloc: Global, out: &mut Vec<Order>) -> Result<usize, AllocError>
        ensures { GivesTo (level_after self.entry.level (resolution (part_tree self.entry.other))) (sealed_up self.entry.level self.entry.height.value (resolution (part_tree self.entry.other))) out.old.items out.new.items result }
    {
        let keys = self.other.resolution(alloc)?;
        if keys.is_empty() {
            return Ok(self.level);
        }
        seal_to(path_slot(self.level), &keys, out)?;
        self.rise(&[Order::Public(key_slot(self.height))], out)
    }

    // The same, with the parent's old node key forgotten first. So does `pass` with another call behind, which would have
    // to come as a closure for two lines.
    fn lay(
        self,
        alloc: Global,
        committer: MemberId,
        out: &mut Vec<Order>,
    ) -> Result<usize, AllocError>
        ensures { GivesTo (level_after self.entry.level (resolution (part_tree self.entry.other))) (held_forgotten committer.0 (parent_of self.entry.node.now) self.entry.height.value ++ sealed_up self.entry.level self.entry.height.value (resolution (part_tree self.entry.other))) out.old.items out.new.items result }
    {
        forget_held(self.node, committer, self.height, out)?;
        self.seal_up(alloc, out)
    }
}

// Lays the committer's path to the top of a part; answers its level there.
pub fn make(
    alloc: Global,
    part: Part,
    committer: MemberId,
    out: &mut Vec<Order>,
) -> Result<usize, AllocError>
    requires { seated committer.0 (part_tree part) ≡ true }
    ensures { GivesTo (levels committer.0 (part_tree part.entry)) (made committer.0 (part_tree part.entry)) out.old.items out.new.items result }
{
    match part.split() {
        Split::Leaf(_) => Ok(0),
        Split::Parent(left, node, right) => {
            let sides = sides_of(left, right, committer);
            let level = make(alloc, sides.own, committer, out)?;
            let step = PathStep {
                node,
                height: Height::of(part),
                other: sides.other,
                level,
            };
            step.lay(alloc, committer, out)
        }
    }
}
