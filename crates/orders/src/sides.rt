// The halves of a part as a member below sees them.
ghost use Rattle.orders.specs.Sides.{SidesOf};

use ratchet_tree::{MemberId, Part, Sides};

// Who isn't in the left half is taken to be in the right one, as the rules go. Not by `Sides::of`, which would look the
// right half over too.
pub fn sides_of<'a>(left: Part<'a>, right: Part<'a>, member: MemberId) -> Sides<'a>
    ensures { SidesOf member.0 left.entry right.entry result }
{
    if left.is_seated(member) {
        Sides {
            own: left,
            other: right,
        }
    } else {
        Sides {
            own: right,
            other: left,
        }
    }
}
