// A script played line by line: what `station` prints.
ghost use Rattle.std.specs.Prelude.{IfOk};
ghost use Rattle.playback.specs.Play.{Printed};
ghost use Rattle.playback.specs.Steps.{Answered, Begins, PlayedAll};

use crate::report::{write_refusal, write_report};
use commits::{CommitError, CommitKeys, Counts, Epoch, NOBODY, PathKeys, Refusal, apply};
use ratchet_tree::{MemberId, PublicKey, RatchetTree};
use scripts::line::{read_founder, read_line};
use scripts::lines::{Lines, too_long};
use std::alloc::{AllocError, Global};

// A station has no vault: this half stands in for every key.
const STAND_IN: PublicKey = PublicKey([0; 32]);

#[derive(Drop)]
pub struct Station {
    tree: RatchetTree,
    epoch: Epoch,
}

// Plays one line, and appends what is printed for it.
fn answer(
    alloc: Global,
    station: &mut Station,
    line: &[u8],
    out: &mut Vec<u8>,
) -> Result<(), AllocError>
    ensures { Answered station.old line.now station.new out.old.items out.new.items result }
{
    // By a rule of the project the reader's answer is taken apart here, and the refusal is what the line answers.
    let Some(commit) = read_line(line) else {
        return write_refusal(out, Refusal::Malformed);
    };
    let keys = CommitKeys {
        newcomer: STAND_IN,
        path: PathKeys {
            leaf: STAND_IN,
            nodes: &[],
        },
    };
    match apply(alloc, &mut station.tree, station.epoch, commit, keys) {
        Ok(applied) => {
            // there is a next one, since `apply` refuses the last
            station.epoch = Epoch(station.epoch.0 + 1);
            let counts = Counts {
                node_keys: applied.node_keys,
                boxes: applied.boxes,
            };
            write_report(out, station.epoch, counts, &station.tree)
        }
        Err(CommitError::Refused(refusal)) => write_refusal(out, refusal),
        Err(CommitError::OutOfMemory) => Err(AllocError),
    }
}

// Plays the lines, and appends what is printed for them.
fn play_lines(
    alloc: Global,
    station: &mut Station,
    lines: Lines<'_>,
    out: &mut Vec<u8>,
) -> Result<(), AllocError>
    ensures { PlayedAll station.old lines.entry out.old.items out.new.items result }
{
    for line in lines {
        answer(alloc, station, line, out)?;
    }
    Ok(())
}

// The founder that an input names, and the lines behind; or why there is nothing to play.
fn begin(input: &[u8]) -> Result<(MemberId, Lines<'_>), Refusal>
    ensures { Begins input.now result }
{
    if too_long(input) {
        return Err(Refusal::Malformed);
    }
    let mut lines = Lines::new(input);
    let first = lines.next().ok_or(Refusal::Malformed)?;
    let founder = read_founder(first).ok_or(Refusal::Malformed)?;
    if founder == MemberId(NOBODY) {
        return Err(Refusal::BadTree);
    }
    Ok((founder, lines))
}

// What is printed for an input, whatever its bytes.
pub fn play(alloc: Global, input: &[u8]) -> Result<Vec<u8>, AllocError>
    ensures bytes { IfOk result (λ v. Printed input.now v.items) }
{
    let mut out = Vec::new(alloc);
    match begin(input) {
        Ok((founder, lines)) => {
            let tree = RatchetTree::founded(alloc, founder, STAND_IN)?;
            let mut station = Station {
                tree,
                epoch: Epoch(0),
            };
            play_lines(alloc, &mut station, lines, &mut out)?;
        }
        Err(refusal) => write_refusal(&mut out, refusal)?,
    }
    Ok(out)
}
