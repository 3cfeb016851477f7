// Reading a tree file, node by node.
ghost use Rattle.ratchet_tree.specs.Nodes.{as_leaf};
ghost use Rattle.wire.specs.Bytes.{Reads, ReadsAs};
ghost use Rattle.messages.specs.TreeFile.{FindsParent, FindsPart, FitsFile, FitsLeaf, Parsed, file_head_bytes, leaf_bytes};

use crate::tree_file::{FileError, FileHeader};
use commits::Epoch;
use ratchet_tree::{Leaf, Node, Parent, RatchetTree};
use std::alloc::Global;
use tree_math::MAX_DEPTH;
use wire::{PartSize, read, read_all, read_run};

fn read_leaf(bytes: &[u8]) -> Option<(Leaf, &[u8])>
    ensures { ReadsAs as_leaf FitsLeaf leaf_bytes bytes.now result }
{
    match bytes {
        [0, rest @ ..] => Some((Leaf::Blank, rest)),
        [1, rest @ ..] => {
            let (member, rest) = read(rest)?;
            let (key, rest) = read(rest)?;
            Some((Leaf::Occupied { member, key }, rest))
        }
        _ => None,
    }
}

fn read_parent(alloc: Global, bytes: &[u8]) -> Result<(Parent, &[u8]), FileError>
    ensures { FindsParent bytes.now result }
{
    match bytes {
        [0, rest @ ..] => Ok((Parent::Blank, rest)),
        [1, rest @ ..] => {
            let (key, rest) = read(rest).ok_or(FileError::Malformed)?;
            let run = read_run(rest, PartSize { bytes: 2 });
            let (members, rest) = run.ok_or(FileError::Malformed)?;
            let unmerged = read_all(alloc, members)?;
            Ok((Parent::Keyed { key, unmerged }, rest))
        }
        _ => Err(FileError::Malformed),
    }
}

// Reads the nodes of a part of that height, and answers what is left.
fn read_part<'a>(
    alloc: Global,
    nodes: &mut Vec<Node>,
    height: usize,
    bytes: &'a [u8],
) -> Result<&'a [u8], FileError>
    ensures { FindsPart height bytes.now nodes.old.items nodes.new.items result }
{
    if height == 0 {
        let (leaf, rest) = read_leaf(bytes).ok_or(FileError::Malformed)?;
        nodes.push(Node::Leaf(leaf))?;
        return Ok(rest);
    }
    let rest = read_part(alloc, nodes, height - 1, bytes)?;
    let (parent, rest) = read_parent(alloc, rest)?;
    nodes.push(Node::Parent(parent))?;
    read_part(alloc, nodes, height - 1, rest)
}

fn read_file_header(bytes: &[u8]) -> Option<(FileHeader, &[u8])>
    ensures { Reads FitsFile file_head_bytes bytes.now result }
{
    // one pattern shows all the bytes at the front; it takes no `?`
    let [6, e0, e1, e2, e3, depth, rest @ ..] = bytes else {
        return None;
    };
    let epoch = Epoch(u32::from_be_bytes([*e0, *e1, *e2, *e3]));
    let depth = *depth as usize;
    if depth > MAX_DEPTH {
        return None;
    }
    Some((FileHeader { epoch, depth }, rest))
}

// The epoch and the tree of a file, whatever the tree holds.
pub fn parse_tree(alloc: Global, bytes: &[u8]) -> Result<(Epoch, RatchetTree), FileError>
    ensures tree { Parsed bytes.now result }
{
    let (header, rest) = read_file_header(bytes).ok_or(FileError::Malformed)?;
    let mut nodes = Vec::new(alloc);
    let rest = read_part(alloc, &mut nodes, header.depth, rest)?;
    if !rest.is_empty() {
        return Err(FileError::Malformed);
    }
    let tree = RatchetTree {
        nodes,
        depth: header.depth,
    };
    Ok((header.epoch, tree))
}
