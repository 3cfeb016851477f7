// Node indices of a left-balanced full binary tree, and the halves of a line of nodes.
#![tactic(auto)]

mod halves;
mod index;
mod laws;
mod walk;

pub use halves::{halves_mut, left_half, right_half};
pub use index::{LeafIndex, MAX_DEPTH, NodeIndex};
pub use laws::{
    child_heights_hold, childless_leaves_hold, children_of_parent_hold, covers_holds,
    leaf_places_hold, numbering_holds, outside_holds, parent_of_children_holds,
    root_has_no_parent_holds,
};
pub use walk::{height, leaf, left, node_count, parent, right, root};
