// Writing a commit message: its bytes are appended.
ghost use Rattle.std.specs.Prelude.{◌≡◌, ◌<◌, true, is_ok, MatchBool};
ghost use Rattle.ratchet_tree.specs.Keys.{Appends};
ghost use Rattle.wire.specs.Bytes.{Whole};
ghost use Rattle.messages.specs.Message.{FitsChange, HeaderFits, Names, Sent, Written, boxes_bytes, change_keys, header_bytes, keys_bytes, message_of};

use crate::message::{CommitMessage, Header, MessageChange, WriteError};
use commits::{Change, NOBODY};
use ratchet_tree::MemberId;
use std::alloc::AllocError;
use wire::write;

// The byte of the kind and the other member; a renewal names nobody.
fn kind_and_other(change: Change) -> (u8, MemberId)
    ensures { Names result.0 result.1.0 change }
{
    match change {
        Change::Renew => (1, MemberId(NOBODY)),
        Change::Remove(member) => (2, member),
        Change::Add(member) => (3, member),
    }
}

// The front in one piece, byte by byte, as it is read.
fn write_header(out: &mut Vec<u8>, header: Header) -> Result<(), AllocError>
    ensures items { Appends out.old.items (header_bytes header) out.new.items result }
    ensures fits { HeaderFits header }
{
    let (kind, other) = kind_and_other(header.change);
    let [e0, e1, e2, e3] = header.epoch.0.to_be_bytes();
    let [c0, c1] = header.committer.0.to_be_bytes();
    let [o0, o1] = other.0.to_be_bytes();
    out.extend_from_slice(&[5, e0, e1, e2, e3, kind, c0, c1, o0, o1])
}

fn write_change_keys(out: &mut Vec<u8>, change: MessageChange) -> Result<(), AllocError>
    ensures items { Appends out.old.items (change_keys change) out.new.items result }
    ensures fits { is_ok result ≡ true → FitsChange change }
{
    if let MessageChange::Add {
        leaf_key,
        init_key,
        ..
    } = change
    {
        write(out, leaf_key)?;
        write(out, init_key)?;
    }
    Ok(())
}

// Are these whole parts of that size, fewer than the limit?
fn is_whole(bytes: &[u8], size: usize, limit: usize) -> bool
    requires { 0 < size }
    ensures { MatchBool result (Whole size limit bytes.now) (Whole size limit bytes.now → ⊥) }
{
    bytes.len().is_multiple_of(size) && bytes.len() / size < limit
}

// The count has one byte here and two before boxes, so each writes its own.
fn write_node_keys(out: &mut Vec<u8>, keys: &[u8]) -> Result<(), AllocError>
    requires { Whole 32 256 keys.now }
    ensures items { Appends out.old.items (keys_bytes keys.now) out.new.items result }
{
    out.push((keys.len() / 32) as u8)?;
    out.extend_from_slice(keys)
}

fn write_boxes(out: &mut Vec<u8>, boxes: &[u8]) -> Result<(), AllocError>
    requires { Whole 48 65536 boxes.now }
    ensures items { Appends out.old.items (boxes_bytes boxes.now) out.new.items result }
{
    write(out, (boxes.len() / 48) as u16)?;
    out.extend_from_slice(boxes)
}

fn append_message(out: &mut Vec<u8>, message: &CommitMessage) -> Result<(), AllocError>
    requires { (Whole 32 256 message.now.node_keys.now) × (Whole 48 65536 message.now.boxes.now) }
    ensures { Written (message_of message.now) out.old.items out.new.items result }
{
    let header = Header {
        epoch: message.epoch,
        committer: message.committer,
        change: message.change.asked(),
    };
    write_header(out, header)?;
    write_change_keys(out, message.change)?;
    write(out, message.leaf_key)?;
    write_node_keys(out, message.node_keys)?;
    write_boxes(out, message.boxes)
}

pub fn write_message(out: &mut Vec<u8>, message: &CommitMessage) -> Result<(), WriteError>
    ensures bytes { Sent (message_of message.now) out.old.items out.new.items result }
{
    if !is_whole(message.node_keys, 32, 256) || !is_whole(message.boxes, 48, 65536) {
        return Err(WriteError::DoesNotFit);
    }
    Ok(append_message(out, message)?)
}
