// A line of a script: the founder's number, or a commit.
ghost use Rattle.scripts.specs.Decimal.{decimal};
ghost use Rattle.scripts.specs.Line.{ReadsFounder, ReadsLine, ReadsPair, founder_bytes, line_bytes, spaced};
ghost use Rattle.scripts.specs.Output.{Appends};
ghost use Rattle.scripts.specs.Verbs.{ReadsVerb};
ghost use Rattle.std.specs.Prelude.{◌≡◌, [], ◌∷◌, ◌++◌, is_ok, if◌then◌else◌};

use crate::numbers::{read_number, write_number};
use crate::split::split_once;
use commits::{Change, Commit};
use ratchet_tree::MemberId;
use std::alloc::AllocError;

// The founder that the first line of a script names.
pub fn read_founder(line: &[u8]) -> Option<MemberId>
    ensures { ReadsFounder line.now result }
{
    read_number(line).map(MemberId)
}

// Two members' numbers, one space apart.
fn read_pair(text: &[u8]) -> Option<(MemberId, MemberId)>
    ensures { ReadsPair text.now result }
{
    let (first, second) = split_once(text, b' ')?;
    let committer = read_number(first)?;
    let member = read_number(second)?;
    Some((MemberId(committer), MemberId(member)))
}

// What a line asks for, by its first word.
enum Verb {
    Renew,
    Remove,
    Add,
}

fn read_verb(word: &[u8]) -> Option<Verb>
    ensures { ReadsVerb word.now result }
{
    match word {
        b"renew" => Some(Verb::Renew),
        b"remove" => Some(Verb::Remove),
        b"add" => Some(Verb::Add),
        _ => None,
    }
}

// The commit that a line asks for. Two words take a pair: what they make of it is written out, as a variant passed for a
// function would be harder to read.
pub fn read_line(line: &[u8]) -> Option<Commit>
    ensures { ReadsLine line.now result }
{
    let (word, rest) = split_once(line, b' ')?;
    match read_verb(word)? {
        Verb::Renew => Some(Commit {
            committer: MemberId(read_number(rest)?),
            change: Change::Renew,
        }),
        Verb::Remove => {
            let (committer, member) = read_pair(rest)?;
            Some(Commit {
                committer,
                change: Change::Remove(member),
            })
        }
        Verb::Add => {
            let (committer, member) = read_pair(rest)?;
            Some(Commit {
                committer,
                change: Change::Add(member),
            })
        }
    }
}

// Appends the founder's line, without a newline, or leaves `out` as it was where there is no memory.
pub fn write_founder(out: &mut Vec<u8>, founder: MemberId) -> Result<(), AllocError>
    ensures items { out.new.items ≡ (if is_ok result then out.old.items ++ founder_bytes founder else out.old.items) }
{
    write_number(out, u64::from(founder.0))
}

// Appends `front` and a member's number. Piece by piece and not by Display, which doesn't tell what it leaves where memory
// fails: a line that wasn't finished is taken back.
fn write_member(out: &mut Vec<u8>, front: &[u8], member: MemberId) -> Result<(), AllocError>
    ensures { Appends out.old.items out.new.items (front.now ++ decimal member.0) result }
{
    out.extend_from_slice(front)?;
    write_number(out, u64::from(member.0))
}

// Appends `front` and two members' numbers, one space apart.
fn write_pair(
    out: &mut Vec<u8>,
    front: &[u8],
    committer: MemberId,
    member: MemberId,
) -> Result<(), AllocError>
    ensures { Appends out.old.items out.new.items (front.now ++ spaced (decimal committer.0 ∷ decimal member.0 ∷ [])) result }
{
    write_member(out, front, committer)?;
    write_member(out, b" ", member)
}

// Appends the words of a commit's line.
fn write_words(out: &mut Vec<u8>, commit: Commit) -> Result<(), AllocError>
    ensures { Appends out.old.items out.new.items (line_bytes commit) result }
{
    match commit.change {
        Change::Renew => write_member(out, b"renew ", commit.committer),
        Change::Remove(member) => write_pair(out, b"remove ", commit.committer, member),
        Change::Add(member) => write_pair(out, b"add ", commit.committer, member),
    }
}

// Appends a commit's line, without a newline, or leaves `out` as it was where there is no memory.
pub fn write_line(out: &mut Vec<u8>, commit: Commit) -> Result<(), AllocError>
    ensures items { out.new.items ≡ (if is_ok result then out.old.items ++ line_bytes commit else out.old.items) }
{
    let start = out.len();
    // no `inspect_err`: what a closure that shortens `out` leaves there stays unproved
    if let Err(error) = write_words(out, commit) {
        out.truncate(start);
        return Err(error);
    }
    Ok(())
}
