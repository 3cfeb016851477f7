// Reading a commit message. Everything is read to its end, or it is no message.
ghost use Rattle.std.specs.Prelude.{◌≡◌, MatchOption};
ghost use Rattle.wire.specs.Bytes.{Reads, ReadsAs, Whole};
ghost use Rattle.messages.specs.Message.{ChangeOf, HeaderFits, Names, NamesNone, Read, Received, change_keys, header_bytes, keys_bytes, kind_asked, other_asked};

use crate::message::{CommitMessage, Header, MessageChange};
use commits::{Change, Epoch, NOBODY, Refusal};
use ratchet_tree::MemberId;
use wire::{PartSize, read, read_run};

// What the byte of the kind and the other member ask; a renewal names nobody.
fn change_named(kind: u8, other: MemberId) -> Option<Change>
    ensures { MatchOption result (NamesNone kind other.0) (Names kind other.0) }
{
    match kind {
        1 if other == MemberId(NOBODY) => Some(Change::Renew),
        2 => Some(Change::Remove(other)),
        3 => Some(Change::Add(other)),
        _ => None,
    }
}

fn read_header(bytes: &[u8]) -> Option<(Header, &[u8])>
    ensures { Reads HeaderFits header_bytes bytes.now result }
{
    // one pattern shows all the bytes at the front, which values read one by one would not; it takes no `?`
    let [5, e0, e1, e2, e3, kind, c0, c1, o0, o1, rest @ ..] = bytes else {
        return None;
    };
    let other = MemberId(u16::from_be_bytes([*o0, *o1]));
    let header = Header {
        epoch: Epoch(u32::from_be_bytes([*e0, *e1, *e2, *e3])),
        committer: MemberId(u16::from_be_bytes([*c0, *c1])),
        change: change_named(*kind, other)?,
    };
    Some((header, rest))
}

// The change with the keys that a newcomer brings.
fn read_change(change: Change, bytes: &[u8]) -> Option<(MessageChange, &[u8])>
    ensures { Reads (ChangeOf (kind_asked change) (other_asked change)) change_keys bytes.now result }
{
    match change {
        Change::Renew => Some((MessageChange::Renew, bytes)),
        Change::Remove(member) => Some((MessageChange::Remove(member), bytes)),
        Change::Add(member) => {
            let (leaf_key, rest) = read(bytes)?;
            let (init_key, rest) = read(rest)?;
            let change = MessageChange::Add {
                member,
                leaf_key,
                init_key,
            };
            Some((change, rest))
        }
    }
}

// A run as `read_run` reads it, but for its count of one byte; a function for both would need a trait of counts.
fn read_node_keys(bytes: &[u8]) -> Option<(&[u8], &[u8])>
    ensures { ReadsAs (λ x. x.now) (Whole 32 256) keys_bytes bytes.now result }
{
    let (count, rest) = bytes.split_first()?;
    rest.split_at_checked(32 * *count as usize)
}

fn read_parts(bytes: &[u8]) -> Option<CommitMessage<'_>>
    ensures { Read bytes.now result }
{
    let (header, rest) = read_header(bytes)?;
    let (change, rest) = read_change(header.change, rest)?;
    let (leaf_key, rest) = read(rest)?;
    let (node_keys, rest) = read_node_keys(rest)?;
    let (boxes, rest) = read_run(rest, PartSize { bytes: 48 })?;
    if !rest.is_empty() {
        return None;
    }
    Some(CommitMessage {
        epoch: header.epoch,
        committer: header.committer,
        change,
        leaf_key,
        node_keys,
        boxes,
    })
}

pub fn read_message(bytes: &[u8]) -> Result<CommitMessage<'_>, Refusal>
    ensures value { Received bytes.now result }
{
    read_parts(bytes).ok_or(Refusal::Malformed)
}
