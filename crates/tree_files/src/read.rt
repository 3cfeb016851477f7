// Reading a tree file: all of its bytes first, then the tree is judged.
ghost use Rattle.tree_files.specs.Verdict.{Loaded};

use crate::judge::is_well_formed;
use commits::{CommitError, Epoch, Refusal};
use messages::parse_tree;
use ratchet_tree::RatchetTree;
use std::alloc::Global;

pub fn read_tree(alloc: Global, bytes: &[u8]) -> Result<(Epoch, RatchetTree), CommitError>
    ensures value { Loaded bytes.now result }
{
    let (epoch, tree) = parse_tree(alloc, bytes)?;
    if !is_well_formed(&tree) {
        return Err(CommitError::Refused(Refusal::BadTree));
    }
    Ok((epoch, tree))
}
