// The lines that are printed: one for each commit, or the number of a refusal. Appended piece by piece and not by Display:
// each piece has a clause of its own that the laws speak of.
ghost use Rattle.std.specs.Prelude.{◌∷◌};
ghost use Rattle.theory.specs.Worked.{cells};
ghost use Rattle.scripts.specs.Decimal.{decimal};
ghost use Rattle.commits.specs.Refusals.{number_of};
ghost use Rattle.ratchet_tree.specs.Keys.{Appends};
ghost use Rattle.ratchet_tree.specs.Nodes.{numbers};
ghost use Rattle.ratchet_tree.specs.Parts.{part_tree};
ghost use Rattle.ratchet_tree.specs.Trees.{the_tree};
ghost use Rattle.playback.specs.Report.{behind_bytes, cell_at, cell_bytes, counts_bytes, members_bytes, nodes_bytes, refusal_bytes, report_bytes};

use commits::{Counts, Epoch, Refusal};
use ratchet_tree::{Leaf, MemberId, Node, Parent, Part, RatchetTree};
use scripts::numbers::write_number;
use std::alloc::AllocError;

// Appends a byte and a number behind it.
fn write_behind(out: &mut Vec<u8>, byte: u8, number: u64) -> Result<(), AllocError>
    ensures { Appends out.old.items (byte ∷ decimal number) out.new.items result }
{
    out.push(byte)?;
    write_number(out, number)
}

// Appends the refusal's number, alone on its line.
pub(crate) fn write_refusal(out: &mut Vec<u8>, refusal: Refusal) -> Result<(), AllocError>
    ensures bytes { Appends out.old.items (refusal_bytes (number_of refusal)) out.new.items result }
{
    write_number(out, u64::from(refusal.number()))?;
    out.extend_from_slice(b"\n")
}

// Appends members' numbers, each behind a comma.
fn write_others(out: &mut Vec<u8>, members: &[MemberId]) -> Result<(), AllocError>
    ensures { Appends out.old.items (behind_bytes (numbers members.now)) out.new.items result }
{
    for member in members {
        write_behind(out, b',', u64::from(member.0))?;
    }
    Ok(())
}

// Appends members' numbers with commas between.
fn write_members(out: &mut Vec<u8>, members: &[MemberId]) -> Result<(), AllocError>
    ensures { Appends out.old.items (members_bytes (numbers members.now)) out.new.items result }
{
    match members.split_first() {
        Some((first, others)) => {
            write_number(out, u64::from(first.0))?;
            write_others(out, others)
        }
        None => Ok(()),
    }
}

// Appends a space and the node at this index: a leaf at an even one, a parent at an odd one. Any other is blank.
fn write_node(out: &mut Vec<u8>, index: usize, node: &Node) -> Result<(), AllocError>
    ensures { Appends out.old.items (32 ∷ cell_bytes (cell_at index node.now)) out.new.items result }
{
    match (index % 2, node) {
        (0, Node::Leaf(Leaf::Occupied { member, .. })) => {
            write_behind(out, b' ', u64::from(member.0))
        }
        (1, Node::Parent(Parent::Keyed { unmerged, .. })) => {
            out.extend_from_slice(b" *")?;
            write_members(out, unmerged)
        }
        _ => out.extend_from_slice(b" ."),
    }
}

// Appends the part's nodes from the left, each behind a space.
fn write_nodes(out: &mut Vec<u8>, part: Part<'_>) -> Result<(), AllocError>
    ensures { Appends out.old.items (nodes_bytes (cells (part_tree part.entry))) out.new.items result }
{
    for (index, node) in part.nodes.iter().enumerate() {
        write_node(out, index, node)?;
    }
    Ok(())
}

// Appends the numbers that a commit's line begins with.
fn write_counts(out: &mut Vec<u8>, epoch: Epoch, counts: Counts) -> Result<(), AllocError>
    ensures { Appends out.old.items (counts_bytes epoch.0 counts.boxes counts.node_keys) out.new.items result }
{
    write_number(out, u64::from(epoch.0))?;
    // There is no `From` of a usize, and an `as` that loses something would not be proved.
    write_behind(out, b' ', counts.boxes as u64)?;
    write_behind(out, b' ', counts.node_keys as u64)
}

// Appends a commit's line: the epoch, how many boxes and node keys the message has, and the tree after it.
pub(crate) fn write_report(
    out: &mut Vec<u8>,
    epoch: Epoch,
    counts: Counts,
    tree: &RatchetTree,
) -> Result<(), AllocError>
    ensures bytes { Appends out.old.items (report_bytes epoch.0 counts.boxes counts.node_keys (the_tree tree.now)) out.new.items result }
{
    write_counts(out, epoch, counts)?;
    write_nodes(out, tree.as_part())?;
    out.extend_from_slice(b"\n")
}
