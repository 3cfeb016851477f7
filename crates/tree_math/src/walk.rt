// The nodes around a node, found by a walk from the top of the tree, as the numbering is defined.
#![tactic(auto, using(crate::proofs::Places::walks))]

ghost use Rattle.std.specs.Prelude.{◌≡◌, ◌+◌, ◌^◌, ◌<◌, ◌≤◌, ◌⊎◌, Some, IfSome};
ghost use Rattle.std.specs.Option.{IfNone, option_map};
ghost use Rattle.theory.specs.Limits.{max_depth};
ghost use Rattle.tree_math.specs.Index.{height_of, in_depth, leaf_of, left_of, node_of, parent_of, right_of, root_of};
ghost use Rattle.tree_math.specs.Span.{span};

use super::index::{LeafIndex, MAX_DEPTH, NodeIndex};

// The number of nodes in a tree.
pub fn node_count(depth: usize) -> Option<usize>
    ensures value { result ≡ in_depth depth (Some (span depth)) }
{
    if depth > MAX_DEPTH {
        return None;
    }
    Some((2 << depth) - 1)
}

// The index of the root.
pub fn root(depth: usize) -> Option<NodeIndex>
    ensures value { result ≡ node_of (in_depth depth (Some (root_of depth))) }
{
    Some(NodeIndex(node_count(depth)? / 2))
}

// How far a node is above the leaves.
pub fn height(depth: usize, node: NodeIndex) -> Option<usize>
    ensures value { result ≡ in_depth depth (height_of depth node.0) }
{
    Some(Place::find(depth, node)?.height)
}

// The node above a node.
pub fn parent(depth: usize, node: NodeIndex) -> Option<NodeIndex>
    ensures value { result ≡ node_of (in_depth depth (parent_of depth node.0)) }
{
    Place::find(depth, node)?.parent
}

// The root of the part before a node.
pub fn left(depth: usize, node: NodeIndex) -> Option<NodeIndex>
    ensures value { result ≡ node_of (in_depth depth (left_of depth node.0)) }
{
    Some(Place::find(depth, node)?.children()?.0.node)
}

// The root of the part behind a node.
pub fn right(depth: usize, node: NodeIndex) -> Option<NodeIndex>
    ensures value { result ≡ node_of (in_depth depth (right_of depth node.0)) }
{
    Some(Place::find(depth, node)?.children()?.1.node)
}

// The node of the leaf at a position.
pub fn leaf(depth: usize, leaf: LeafIndex) -> Option<NodeIndex>
    ensures value { result ≡ node_of (in_depth depth (leaf_of depth leaf.0)) }
{
    let index = leaf.0.checked_mul(2)?;
    (index < node_count(depth)?).then_some(NodeIndex(index))
}

// A node as the walk meets it, with its height and the node above it.
#[derive(Clone, Copy)]
struct Place {
    depth: usize,
    node: NodeIndex,
    height: usize,
    parent: Option<NodeIndex>,
    ghost shallow: { depth ≤ max_depth },
    ghost height_is: { height_of depth node.0 ≡ Some height },
    ghost parent_is: { node_of (parent_of depth node.0) ≡ parent },
}

impl Place {
    fn top(depth: usize) -> Option<Place>
        ensures none { IfNone result (max_depth < depth) }
        ensures top { IfSome result (λ top. (top.depth ≡ depth) × (top.height ≡ depth) × (top.node.0 ≡ root_of depth)) }
    {
        Some(Place {
            depth,
            node: root(depth)?,
            height: depth,
            parent: None,
        })
    }

    // Its children, 2 ^ (height - 1) places before and behind it; a leaf has none.
    fn children(self) -> Option<(Place, Place)>
        ensures left { left_of self.depth self.node.0 ≡ option_map (λ both. both.0.node.0) result }
        ensures right { right_of self.depth self.node.0 ≡ option_map (λ both. both.1.node.0) result }
        ensures leaf { IfNone result (self.height ≡ 0) }
        ensures depth { IfSome result (λ both. (both.0.depth ≡ self.depth) × (both.1.depth ≡ self.depth)) }
        ensures height { IfSome result (λ both. (both.0.height + 1 ≡ self.height) × (both.1.height + 1 ≡ self.height)) }
        ensures apart { IfSome result (λ both. (both.0.node.0 + 2 ^ both.0.height ≡ self.node.0) × (both.1.node.0 ≡ self.node.0 + 2 ^ both.1.height)) }
    {
        let height = self.height.checked_sub(1)?;
        let step = 1 << height;
        let left = Place {
            depth: self.depth,
            node: NodeIndex(self.node.0 - step),
            height,
            parent: Some(self.node),
        };
        let right = Place {
            depth: self.depth,
            node: NodeIndex(self.node.0 + step),
            height,
            parent: Some(self.node),
        };
        Some((left, right))
    }

    // The walk from the top, down the side on which the node stands.
    fn find(depth: usize, node: NodeIndex) -> Option<Place>
        ensures none { IfNone result ((max_depth < depth) ⊎ (span depth ≤ node.0)) }
        ensures found { IfSome result (λ place. (place.depth ≡ depth) × (place.node.0 ≡ node.0)) }
    {
        let mut place = Place::top(depth)?;
        while place.node != node {
            let (left, right) = place.children()?;
            place = if node < place.node { left } else { right };
        }
        Some(place)
    }
}
