// The ratchet tree: members at its leaves, node keys at its parents, and what is asked of it and done to it.
#![tactic(auto)]

mod add;
mod ask;
mod copy;
mod error;
mod keys;
mod member;
mod node;
mod occupants;
mod part;
mod remove;
mod seats;
mod sides;
mod split;
mod tree;

pub use error::TreeError;
pub use keys::{Keyed, is_among};
pub use member::{MemberId, PublicKey};
pub use node::{Leaf, Node, Parent};
pub use occupants::Occupant;
pub use part::Part;
pub use sides::Sides;
pub use split::Split;
pub use tree::RatchetTree;
