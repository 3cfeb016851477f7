// The path, for a member who is given it.
ghost use Rattle.std.specs.Prelude.{◌≡◌, true, [], ◌∷◌, map};
ghost use Rattle.theory.specs.Tree.{seated};
ghost use Rattle.vault_theory.specs.Numbers.{levels};
ghost use Rattle.vault_theory.specs.Orders.{followed, opened};
ghost use Rattle.ratchet_tree.specs.Parts.{part_tree};
ghost use Rattle.vault_theory.specs.Capped.{cap_order};
ghost use Rattle.orders.specs.Given.{GivesTo};

use crate::give::give;
use crate::height::Height;
use crate::number::{key_height, key_number};
use crate::order::Order;
use crate::sides::sides_of;
use crate::slots::{key_slot, path_slot};
use crate::step::PathStep;
use commits::path_counts;
use ratchet_tree::{MemberId, Part, Sides, Split};
use std::alloc::AllocError;

// Opens the box that reaches the member, on the other side of the committer's path; answers the level of what is in it.
fn open(
    sides: Sides,
    member: MemberId,
    committer: MemberId,
    out: &mut Vec<Order>,
) -> Result<usize, AllocError>
    ensures { GivesTo (levels committer.0 (part_tree sides.entry.own)) (map cap_order (opened member.0 committer.0 (part_tree sides.entry.own) (part_tree sides.entry.other) ∷ [])) out.old.items out.new.items result }
{
    let counts = path_counts(sides.own, committer);
    let order = Order::Open {
        number: counts.boxes.saturating_add(key_number(sides.other, member)),
        key: key_slot(key_height(sides.other, member)),
        into: path_slot(counts.node_keys),
    };
    give(out, &[order])?;
    Ok(counts.node_keys)
}

// Follows the committer's path to the top of a part, from where it meets the member's way; answers its level there.
// `make` goes up the same path from the leaf. One walk for both would take closures for where it starts and for each
// parent, and be longer than the two.
pub fn follow(
    part: Part,
    member: MemberId,
    committer: MemberId,
    out: &mut Vec<Order>,
) -> Result<usize, AllocError>
    requires { seated committer.0 (part_tree part) ≡ true }
    ensures { GivesTo (levels committer.0 (part_tree part.entry)) (map cap_order (followed member.0 committer.0 (part_tree part.entry))) out.old.items out.new.items result }
{
    match part.split() {
        Split::Leaf(_) => Ok(0),
        Split::Parent(left, node, right) => {
            let sides = sides_of(left, right, committer);
            let level = if sides.own.is_seated(member) {
                follow(sides.own, member, committer, out)?
            } else {
                open(sides, member, committer, out)?
            };
            let step = PathStep {
                node,
                height: Height::of(part),
                other: sides.other,
                level,
            };
            step.pass(member, out)
        }
    }
}
