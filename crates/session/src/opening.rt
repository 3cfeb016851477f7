// A handset from its member's number as text, and a tree file.
ghost use Rattle.session.specs.Start.{Started};

use commits::Refusal;
use messages::Handset;
use ratchet_tree::MemberId;
use scripts::numbers::read_number;
use std::alloc::Global;
use tree_files::{FileError, read_tree};

pub fn start(alloc: Global, member: &[u8], file: &[u8]) -> Result<Handset, FileError>
    ensures value { Started member.now file.now result }
{
    let number = read_number(member).ok_or(Refusal::Malformed)?;
    let (epoch, tree) = read_tree(alloc, file)?;
    Ok(Handset {
        member: MemberId(number),
        tree,
        epoch,
    })
}
