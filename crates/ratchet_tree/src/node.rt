// What stands at a node: a leaf or a parent.
use crate::member::{MemberId, PublicKey};

// Blank or occupied, by a rule of the project in so many words and not as an Option; so is a parent blank or keyed.
#[derive(Drop)]
pub enum Leaf {
    Blank,
    Occupied { member: MemberId, key: PublicKey },
}

// Unmerged: the members below that came after the key was laid, so without it; latest first.
#[derive(Drop)]
pub enum Parent {
    Blank,
    Keyed {
        key: PublicKey,
        unmerged: Vec<MemberId>,
    },
}

#[derive(Drop)]
pub enum Node {
    Leaf(Leaf),
    Parent(Parent),
}
