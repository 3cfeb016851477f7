// A member that is removed forgets all it holds.
ghost use Rattle.vault_theory.specs.Orders.{leaving};
ghost use Rattle.ratchet_tree.specs.Parts.{part_tree};
ghost use Rattle.orders.specs.Given.{Gives};

use crate::drop::take_keys;
use crate::give::give;
use crate::order::Order;
use crate::slots::{LEAF_SLOT, SEED_SLOT, TALK_SLOT};
use ratchet_tree::{MemberId, Part};
use std::alloc::AllocError;

// Its keys go from below: the leaf key, and then every node key.
pub fn leave(part: Part, member: MemberId, out: &mut Vec<Order>) -> Result<(), AllocError>
    ensures { Gives (leaving member.0 (part_tree part.entry)) out.old.items out.new.items result }
{
    let secrets = [
        Order::Forget(TALK_SLOT),
        Order::Forget(SEED_SLOT),
        Order::Forget(LEAF_SLOT),
    ];
    give(out, &secrets)?;
    take_keys(part, member, &|_: Part| true, out)
}
