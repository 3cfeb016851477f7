// How high a node stands.
ghost use Rattle.std.specs.Prelude.{◌≡◌, ◌≤◌};
ghost use Rattle.theory.specs.Limits.{max_depth};

use ratchet_tree::Part;

// No higher than a tree may be, so that the key there has a slot.
#[derive(Clone, Copy)]
pub struct Height {
    pub value: usize,
    ghost low: { value ≤ max_depth },
}

impl Height {
    // Where the leaves stand.
    pub fn leaf() -> Height
        ensures { result.value ≡ 0 }
    {
        Height { value: 0 }
    }

    // Where the top of a part stands.
    pub fn of(part: Part) -> Height
        ensures { result.value ≡ part.entry.height }
    {
        Height { value: part.height }
    }
}
