// One parent of the path: the old node key is forgotten, and the new one made where the path has one.
ghost use Rattle.std.specs.Prelude.{suc, ◌++◌, [], map};
ghost use Rattle.theory.specs.Path.{level_after};
ghost use Rattle.theory.specs.Tree.{resolution};
ghost use Rattle.vault_theory.specs.Orders.{climbed, held_forgotten, risen};
ghost use Rattle.ratchet_tree.specs.Nodes.{parent_of};
ghost use Rattle.ratchet_tree.specs.Parts.{part_tree};
ghost use Rattle.orders.specs.Given.{GivesTo};
ghost use Rattle.orders.specs.Order.{order_of};

use crate::give::give;
use crate::held::forget_held;
use crate::order::{Order, Way};
use crate::slots::{key_slot, path_slot};
use crate::step::PathStep;
use commits::resolution_count;
use ratchet_tree::MemberId;
use std::alloc::AllocError;

impl PathStep<'_> {
    // The node key and the next path secret, from the path secret; `between` stands after the node key was made.
    // Answers the level above.
    pub fn rise(self, between: &[Order], out: &mut Vec<Order>) -> Result<usize, AllocError>
        ensures { GivesTo (suc self.entry.level) (risen self.entry.level self.entry.height.value (map order_of between.now)) out.old.items out.new.items result }
    {
        let path = path_slot(self.level);
        let next = path_slot(self.level + 1);
        let lock = Order::Derive {
            way: Way::Lock,
            from: path,
            into: key_slot(self.height),
        };
        let up = Order::Derive {
            way: Way::Up,
            from: path,
            into: next,
        };
        give(out, &[lock])?;
        give(out, between)?;
        give(out, &[up, Order::Forget(path)])?;
        Ok(self.level + 1)
    }

    // The node key, where there is anybody on the path's other side; answers the level above.
    fn climb(self, out: &mut Vec<Order>) -> Result<usize, AllocError>
        ensures { GivesTo (level_after self.entry.level (resolution (part_tree self.entry.other))) (climbed self.entry.level self.entry.height.value (resolution (part_tree self.entry.other))) out.old.items out.new.items result }
    {
        if resolution_count(self.other) == 0 {
            return Ok(self.level);
        }
        self.rise(&[], out)
    }

    // The same for a member who may hold the parent's old node key.
    pub fn pass(self, member: MemberId, out: &mut Vec<Order>) -> Result<usize, AllocError>
        ensures { GivesTo (level_after self.entry.level (resolution (part_tree self.entry.other))) (held_forgotten member.0 (parent_of self.entry.node.now) self.entry.height.value ++ climbed self.entry.level self.entry.height.value (resolution (part_tree self.entry.other))) out.old.items out.new.items result }
    {
        forget_held(self.node, member, self.height, out)?;
        self.climb(out)
    }
}
