// Writing a tree file: its bytes are appended.
ghost use Rattle.std.specs.Prelude.{◌≡◌, ◌<◌, ◌≤◌, true, length, is_ok};
ghost use Rattle.theory.specs.Limits.{max_depth};
ghost use Rattle.theory.specs.Tree.{keyed, occupied};
ghost use Rattle.ratchet_tree.specs.Keys.{Appends};
ghost use Rattle.ratchet_tree.specs.Nodes.{leaf_of, numbers, parent_of};
ghost use Rattle.ratchet_tree.specs.Parts.{part_tree};
ghost use Rattle.ratchet_tree.specs.Trees.{the_tree};
ghost use Rattle.messages.specs.TreeFile.{FitsFile, FitsLeaf, FitsParent, FitsPart, FitsTree, encode_tree, file_head_bytes, leaf_bytes, nodes_bytes, parent_bytes};
ghost use Rattle.tree_files.specs.Verdict.{file_of};
ghost use Rattle.tree_files.specs.Write.{Filed, countable, countable_at};

use commits::Epoch;
use messages::{FileHeader, WriteError};
use ratchet_tree::{Keyed, Node, Occupant, Part, RatchetTree, Split};
use std::alloc::AllocError;
use wire::{write, write_all};

fn write_occupied(out: &mut Vec<u8>, occupant: Occupant) -> Result<(), AllocError>
    ensures items { Appends out.old.items (leaf_bytes (occupied occupant.member.0 occupant.key)) out.new.items result }
    ensures fits { is_ok result ≡ true → FitsLeaf (occupied occupant.member.0 occupant.key) }
{
    out.push(1)?;
    write(out, occupant.member)?;
    write(out, occupant.key)
}

fn write_leaf(out: &mut Vec<u8>, node: &Node) -> Result<(), AllocError>
    ensures items { Appends out.old.items (leaf_bytes (leaf_of node.now)) out.new.items result }
    ensures fits { is_ok result ≡ true → FitsLeaf (leaf_of node.now) }
{
    match node.occupant() {
        Some(occupant) => write_occupied(out, occupant),
        None => Ok(out.push(0)?),
    }
}

// That its members can be counted is asked here of them, and above of a parent, a part and the tree: four facts.
fn write_keyed(out: &mut Vec<u8>, node_key: Keyed) -> Result<(), AllocError>
    requires { length node_key.unmerged.now < 65536 }
    ensures items { Appends out.old.items (parent_bytes (keyed node_key.entry.key (numbers node_key.entry.unmerged.now))) out.new.items result }
    ensures fits { is_ok result ≡ true → FitsParent (keyed node_key.entry.key (numbers node_key.entry.unmerged.now)) }
{
    out.push(1)?;
    write(out, node_key.key)?;
    write(out, node_key.unmerged.len() as u16)?;
    write_all(out, node_key.unmerged)
}

fn write_parent(out: &mut Vec<u8>, node: &Node) -> Result<(), AllocError>
    requires { countable_at (parent_of node.now) ≡ true }
    ensures items { Appends out.old.items (parent_bytes (parent_of node.now)) out.new.items result }
    ensures fits { is_ok result ≡ true → FitsParent (parent_of node.now) }
{
    match node.node_key() {
        Some(node_key) => write_keyed(out, node_key),
        None => out.extend_from_slice(&[0]),
    }
}

// Can the unmerged members of this parent be counted in two bytes?
fn is_countable_at(node: &Node) -> bool
    ensures { result ≡ countable_at (parent_of node.now) }
{
    node.node_key()
        .is_none_or(|node_key| node_key.unmerged.len() < 65536)
}

#[tactic(auto, unfolding(crate::specs::Write::countable))]
fn is_countable(part: Part) -> bool
    ensures { result ≡ countable (part_tree part.entry) }
{
    match part.split() {
        Split::Leaf(_) => true,
        Split::Parent(left, node, right) => {
            is_countable_at(node) && is_countable(left) && is_countable(right)
        }
    }
}

#[tactic(auto, unfolding(crate::specs::Write::countable, messages::specs::TreeFile::nodes_bytes, messages::specs::TreeFile::FitsPart))]
fn write_part(out: &mut Vec<u8>, part: Part) -> Result<(), AllocError>
    requires { countable (part_tree part) ≡ true }
    ensures items { Appends out.old.items (nodes_bytes (part_tree part.entry)) out.new.items result }
    ensures fits { is_ok result ≡ true → FitsPart part.entry.height (part_tree part.entry) }
{
    match part.split() {
        Split::Leaf(node) => write_leaf(out, node),
        Split::Parent(left, node, right) => {
            write_part(out, left)?;
            write_parent(out, node)?;
            write_part(out, right)
        }
    }
}

// The front in one piece, byte by byte, as it is read.
fn write_file_header(out: &mut Vec<u8>, header: FileHeader) -> Result<(), AllocError>
    requires { header.depth ≤ max_depth }
    ensures items { Appends out.old.items (file_head_bytes header) out.new.items result }
    ensures fits { FitsFile header }
{
    let [e0, e1, e2, e3] = header.epoch.0.to_be_bytes();
    out.extend_from_slice(&[6, e0, e1, e2, e3, header.depth as u8])
}

#[tactic(auto, unfolding(messages::specs::TreeFile::encode_tree))]
fn append_tree(out: &mut Vec<u8>, epoch: Epoch, tree: &RatchetTree) -> Result<(), AllocError>
    requires { countable (the_tree tree.now) ≡ true }
    ensures items { Appends out.old.items (encode_tree epoch.0 tree.now.depth (the_tree tree.now)) out.new.items result }
    ensures fits { is_ok result ≡ true → FitsTree epoch.0 tree.now.depth (the_tree tree.now) }
{
    let header = FileHeader {
        epoch,
        depth: tree.depth,
    };
    write_file_header(out, header)?;
    write_part(out, tree.as_part())
}

// Appends the file of an epoch and a tree. A tree that doesn't fit leaves the bytes as they were.
pub fn write_tree(out: &mut Vec<u8>, epoch: Epoch, tree: &RatchetTree) -> Result<(), WriteError>
    ensures bytes { Filed (file_of (epoch, tree.now)) out.old.items out.new.items result }
{
    if !is_countable(tree.as_part()) {
        return Err(WriteError::DoesNotFit);
    }
    Ok(append_tree(out, epoch, tree)?)
}
