// The node keys that are taken from a member, by a removal of another or of its own.
ghost use Rattle.std.specs.Prelude.{◌≡◌, Bool};
ghost use Rattle.theory.specs.Tree.{Tree};
ghost use Rattle.vault_theory.specs.Orders.{dropped};
ghost use Rattle.ratchet_tree.specs.Parts.{part_tree};
ghost use Rattle.ratchet_tree.specs.declared.member.PublicKey.{PublicKey as Key};
ghost use Rattle.orders.specs.Given.{Gives};
ghost use Rattle.orders.specs.Taken.{taken};

use crate::height::Height;
use crate::held::forget_held;
use crate::order::Order;
use crate::sides::sides_of;
use ratchet_tree::{MemberId, Part, Split};
use std::alloc::AllocError;

// Of the parents above a member, from below, it forgets the node keys of those that are taken.
pub fn take_keys<F: Fn(Part) -> bool>(
    part: Part,
    member: MemberId,
    is_taken: &F,
    out: &mut Vec<Order>,
) -> Result<(), AllocError>
    requires { F.IsAlwaysCallable is_taken.now }
    ensures { (test : Tree Key → Bool) → ((p : _) (b : _) → F.post is_taken.now p b → b ≡ test (part_tree p)) → Gives (taken member.0 test (part_tree part.entry)) out.old.items out.new.items result }
{
    match part.split() {
        Split::Leaf(_) => Ok(()),
        Split::Parent(left, node, right) => {
            let sides = sides_of(left, right, member);
            take_keys(sides.own, member, is_taken, out)?;
            if !is_taken(part) {
                return Ok(());
            }
            forget_held(node, member, Height::of(part), out)
        }
    }
}

// Those of the parents above the one who is removed, since these become blank.
pub fn drop_keys(
    part: Part,
    member: MemberId,
    removed: MemberId,
    out: &mut Vec<Order>,
) -> Result<(), AllocError>
    ensures { Gives (dropped member.0 removed.0 (part_tree part.entry)) out.old.items out.new.items result }
{
    take_keys(part, member, &|below: Part| below.is_seated(removed), out)
}
