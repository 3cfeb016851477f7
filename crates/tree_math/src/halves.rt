// The two halves of a line of nodes, cut at its middle node.
ghost use Rattle.std.specs.Borrow.{Array, LendsBoth, sem};
ghost use Rattle.std.specs.Prelude.{◌≡◌, ◌+◌, ◌-◌, ◌++◌, length};
ghost use Rattle.tree_math.specs.Span.{left_half, middle, right_half};

// What stands before the middle node.
pub fn left_half<T>(nodes: &[T]) -> &[T]
    ensures value { result.now ≡ left_half nodes.now }
    ensures len { length result.now ≡ middle (length nodes.now) }
{
    &nodes[..nodes.len() / 2]
}

// What stands behind the middle node.
pub fn right_half<T>(nodes: &[T]) -> &[T]
    ensures value { result.now ≡ right_half nodes.now }
    ensures len { length result.now ≡ length nodes.now - (middle (length nodes.now) + 1) }
{
    if nodes.is_empty() {
        return nodes;
    }
    nodes.split_at(nodes.len() / 2 + 1).1
}

// The left half, and the middle node with the right half behind it: each to be written.
pub fn halves_mut<T>(nodes: &mut [T]) -> (&mut [T], &mut [T])
    ensures value { nodes.old ≡ result.0.now ++ result.1.now }
    ensures len { length result.0.now ≡ middle (length nodes.old) }
    ensures* writes_back { sem 𝓛 (LendsBoth (Array T.row 0) (Array T.row 0) (Array T.row 0) nodes.entry result ◌++◌) }
{
    let half = nodes.len() / 2;
    nodes.split_at_mut(half)
}
