// Places in a tree: nodes are numbered from left to right, and so are leaves.

// The deepest tree has this many levels below its root.
pub const MAX_DEPTH: usize = 10;

// A place in the line of all nodes: leaves at the even places, parents between them.
#[derive(Clone, Copy, PartialEq, Eq, PartialOrd, Ord, Hash, Debug)]
pub struct NodeIndex(pub usize);

// A place in the line of leaves.
#[derive(Clone, Copy, PartialEq, Eq, PartialOrd, Ord, Hash, Debug)]
pub struct LeafIndex(pub usize);
