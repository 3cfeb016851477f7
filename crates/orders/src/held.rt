// The node key that a member holds of a parent.
ghost use Rattle.std.specs.Prelude.{◌≡◌};
ghost use Rattle.vault_theory.specs.Numbers.{is_held};
ghost use Rattle.vault_theory.specs.Orders.{held_forgotten};
ghost use Rattle.ratchet_tree.specs.Nodes.{parent_of};
ghost use Rattle.orders.specs.Given.{Gives};

use crate::give::give;
use crate::height::Height;
use crate::order::Order;
use crate::slots::key_slot;
use ratchet_tree::{MemberId, Node, is_among};
use std::alloc::AllocError;

// Does the member, seated below, hold the node key of this parent?
fn is_held(node: &Node, member: MemberId) -> bool
    ensures { result ≡ is_held member.0 (parent_of node.now) }
{
    node.node_key()
        .is_some_and(|keyed| !is_among(keyed.unmerged, member))
}

// Forgets the node key of a parent of this height, where the member holds it.
pub fn forget_held(
    node: &Node,
    member: MemberId,
    height: Height,
    out: &mut Vec<Order>,
) -> Result<(), AllocError>
    ensures { Gives (held_forgotten member.0 (parent_of node.now) height.value) out.old.items out.new.items result }
{
    if !is_held(node, member) {
        return Ok(());
    }
    give(out, &[Order::Forget(key_slot(height))])
}
