// The halves of a part as a member below sees them.
ghost use Rattle.std.specs.Prelude.{◌≡◌, ◌||◌, is_some, if◌then◌else◌, IfSome};
ghost use Rattle.theory.specs.Tree.{seated};
ghost use Rattle.ratchet_tree.specs.Parts.{part_tree};

use crate::member::MemberId;
use crate::part::Part;

// The half that the member sits in, and the other.
#[derive(Clone, Copy)]
pub struct Sides<'a> {
    pub own: Part<'a>,
    pub other: Part<'a>,
}

impl<'a> Sides<'a> {
    // The left half is asked first; none where the member sits in neither.
    pub fn of(left: Part<'a>, right: Part<'a>, member: MemberId) -> Option<Sides<'a>>
        ensures variant { is_some result ≡ (seated member.0 (part_tree left.entry) || seated member.0 (part_tree right.entry)) }
        ensures own { IfSome result (λ s. part_tree s.own ≡ (if seated member.0 (part_tree left.entry) then part_tree left.entry else part_tree right.entry)) }
        ensures other { IfSome result (λ s. part_tree s.other ≡ (if seated member.0 (part_tree left.entry) then part_tree right.entry else part_tree left.entry)) }
        ensures own_height { IfSome result (λ s. s.own.height ≡ (if seated member.0 (part_tree left.entry) then left.entry.height else right.entry.height)) }
        ensures other_height { IfSome result (λ s. s.other.height ≡ (if seated member.0 (part_tree left.entry) then right.entry.height else left.entry.height)) }
    {
        if left.is_seated(member) {
            Some(Sides {
                own: left,
                other: right,
            })
        } else if right.is_seated(member) {
            Some(Sides {
                own: right,
                other: left,
            })
        } else {
            None
        }
    }
}
