// A table of where members sit, by their numbers: one way over the leaves then serves many members. A Vec and no map,
// since a number is small and finds its entry by itself.
ghost use Rattle.std.specs.Prelude.{◌≡◌, ◌<◌, ◌≤◌, IfOk, MatchOption, length, slice_index_or};
ghost use Rattle.std.specs.List.{All};
ghost use Rattle.ratchet_tree.specs.declared.member.MemberId.{MemberId as Id};
ghost use Rattle.ratchet_tree.specs.declared.seats.Seat.TheVariants.{Nowhere};
ghost use Rattle.ratchet_tree.specs.Nodes.{leaf_of};
ghost use Rattle.ratchet_tree.specs.Parts.{part_tree};
ghost use Rattle.ratchet_tree.specs.Seats.{HasCode, Noted, NotedMember, Seats, one_more};

use crate::member::MemberId;
use crate::node::Node;
use crate::part::Part;
use std::alloc::{AllocError, Global};
use std::marker::Model;
use tree_math::LeafIndex;

// Where a member sits.
#[derive(Clone, Copy, PartialEq, Eq, Debug)]
pub(crate) enum Seat {
    Nowhere,
    At(LeafIndex),
    Several,
}

// A seat in two bytes, where a Seat has sixteen: a table may have 65,536 of them, and all are written.
#[derive(Clone, Copy)]
pub(crate) struct Entry {
    // NOWHERE, SEVERAL, or the leaf's number
    code: u16,
}

const NOWHERE: u16 = 65535;

const SEVERAL: u16 = 65534;

impl Model for Entry {
    ghost use Rattle.ratchet_tree.specs.declared.seats.Seat.{Seat as Place};
    ghost use Rattle.ratchet_tree.specs.Seats.{code-seat, code_of, seat_of};

    ghost Value = { Place };

    ghost view = { λ e. seat_of e.code };

    ghost inverse = { λ s. record { code = code_of s } };

    ghost inverse_ok = { λ e _ i. record { code = code-seat e.code i } };
}

impl Entry {
    fn nowhere() -> Entry
        ensures { result ≡ Nowhere }
    {
        Entry { code: NOWHERE }
    }

    fn seat(self) -> Seat
        ensures { result ≡ self }
    {
        match self.code {
            NOWHERE => Seat::Nowhere,
            SEVERAL => Seat::Several,
            leaf => Seat::At(LeafIndex(usize::from(leaf))),
        }
    }

    // The same with one leaf more.
    fn and_at(self, leaf: LeafIndex) -> Entry
        requires { HasCode leaf }
        ensures { result ≡ one_more leaf self }
    {
        match self.seat() {
            Seat::Nowhere => Entry {
                code: leaf.0 as u16,
            },
            Seat::At(_) | Seat::Several => Entry { code: SEVERAL },
        }
    }
}

// Notes that the member sits at the leaf, where the table has an entry for it.
fn note_member(seats: &mut [Entry], member: MemberId, leaf: LeafIndex)
    requires { HasCode leaf }
    ensures { NotedMember member.0 leaf seats.old seats.new }
{
    // by index: a write through `get_mut` tells nothing of what the table holds then
    let index = usize::from(member.0);
    if index < seats.len() {
        seats[index] = seats[index].and_at(leaf);
    }
}

// Notes who sits at the node, taken as a leaf.
fn note_leaf(seats: &mut [Entry], node: &Node, leaf: LeafIndex)
    requires { HasCode leaf }
    ensures { Noted (leaf_of node.now) leaf seats.old seats.new }
{
    if let Some(occupant) = node.occupant() {
        note_member(seats, occupant.member, leaf);
    }
}

// The largest number of these.
fn largest(members: &[MemberId]) -> u16
    ensures { All (λ (m : Id). m.0 ≤ result) members.now }
{
    members
        .iter()
        .max_by_key(|member| member.0)
        .map_or(0, |member| member.0)
}

// Where the part seats these members; the table has no more entries than they need.
pub(crate) fn seats_of(
    alloc: Global,
    part: Part,
    members: &[MemberId],
) -> Result<Vec<Entry>, AllocError>
    ensures told { IfOk result (λ v. Seats (part_tree part.entry) v.items) }
    ensures covers { IfOk result (λ v. All (λ (m : Id). m.0 < length v.items) members.now) }
{
    let mut seats = Vec::new(alloc);
    seats.resize(usize::from(largest(members)) + 1, Entry::nowhere())?;
    // leaves stand at the even indices, and the index tells which leaf it is
    for (index, node) in part.nodes.iter().enumerate() {
        if index % 2 == 0 {
            note_leaf(&mut seats, node, LeafIndex(index / 2));
        }
    }
    Ok(seats)
}

// What the table says of the member; nothing where it has no entry for it.
pub(crate) fn seat_at(seats: &[Entry], member: MemberId) -> Option<Seat>
    ensures { MatchOption result (length seats.now ≤ member.0) (λ s. (member.0 < length seats.now) × (s ≡ slice_index_or seats.now member.0 Nowhere)) }
{
    seats.get(usize::from(member.0)).map(|entry| entry.seat())
}
