// The orders that a member gives its vault, for one message after the other.
#![tactic(auto)]

use anyhow::anyhow;
use session::{reply, start};
use std::env::Args;
use std::io::Write;
use std::process::ExitCode;
use std::{env, fs};
use tree_files::FileError;

const HELP: &str = "usage: handset MEMBER TREE MESSAGE..

Reads a tree file and then commit messages from files, as one member's handset,
and prints the orders that the member gives its vault: for each message its
orders, one to a line, and then an empty line.
  draw S          a new secret into slot S
  up S T          made from what slot S holds, into slot T; so are lock S T,
                  seed S T and talk S T
  mix S T U       made from slots S and T, into slot U
  seal S HALF     a box with what slot S holds, for the key with that public half
  open K S T      box K of the message, from 0, opened with slot S, into slot T
  forget S        slot S becomes empty
  public S        the public half of the key in slot S
A message that is refused prints its number alone and then an empty line, and
changes nothing:
  1 no message                                 5 the newcomer is seated, or is 65535
  2 another epoch than the next                6 1024 members are seated
  3 the committer, or this member, is not      7 another number of node keys or boxes
    seated                                       than the rules give
  4 the member to remove is not seated, or     9 the last epoch has been reached
    is the committer
A tree file that is refused prints 1 or 8 and ends the program, and so does a
MEMBER that is no number from 0 to 65535, by 1. A refusal is an answer, so the
status is 0. A file that cannot be read, a wrong call, and an argument that is
not UTF-8, end with status 1 and print no order.
";

// The whole of a file; none, and a line of our own on standard error, where it cannot be read: as an error of `main` it
// would be printed in other words.
fn read_file(rt: &HostRuntime, path: &str) -> anyhow::Result<Option<Vec<u8>>> {
    match fs::read(rt, path) {
        Ok(bytes) => Ok(Some(bytes)),
        Err(error) => {
            eprintln!(rt; "handset: {path}: {error}")?;
            Ok(None)
        }
    }
}

// What is printed for a member, a tree file and messages.
fn answer(
    rt: &HostRuntime,
    member: &str,
    tree: &[u8],
    messages: &[Vec<u8>],
) -> anyhow::Result<Vec<u8>> {
    let alloc = rt.alloc();
    let mut out = Vec::new(alloc);
    match start(alloc, member.as_bytes(), tree) {
        Ok(mut handset) => {
            for message in messages {
                reply(alloc, &mut handset, message, &mut out)?;
            }
        }
        Err(FileError::Refused(refusal)) => session::refuse(refusal, &mut out)?,
        Err(FileError::OutOfMemory) => return Err(anyhow!("no memory")),
    }
    Ok(out)
}

fn wrong_call(rt: &HostRuntime) -> anyhow::Result<ExitCode> {
    rt.eprintln("handset: takes MEMBER TREE MESSAGE..; see handset --help")?;
    Ok(ExitCode::FAILURE)
}

// Plays the letters in these files, as the member of the group in the tree file. A letter's name is let go when its file
// has been read, since there may be many.
fn play(rt: &HostRuntime, member: &str, tree: &str, letters: Args) -> anyhow::Result<ExitCode> {
    let Some(tree) = read_file(rt, tree)? else {
        return Ok(ExitCode::FAILURE);
    };
    let mut messages = Vec::new(rt.alloc());
    for path in letters {
        let Some(message) = read_file(rt, path.as_str())? else {
            return Ok(ExitCode::FAILURE);
        };
        messages.push(message)?;
    }
    let output = answer(rt, member, &tree, &messages)?;
    rt.stdout().write_all(&output)?;
    Ok(ExitCode::SUCCESS)
}

fn run(rt: &HostRuntime) -> anyhow::Result<ExitCode> {
    let mut words = env::args(rt)?;
    let _program = words.next();
    let member = words.next();
    let tree = words.next();
    match (member.as_deref(), tree.as_deref()) {
        (Some(member), Some(tree)) => play(rt, member, tree, words),
        (Some("--help"), None) => {
            rt.print(HELP)?;
            Ok(ExitCode::SUCCESS)
        }
        _ => wrong_call(rt),
    }
}

fn main(rt: HostRuntime) -> anyhow::Result<ExitCode> {
    run(&rt)
}
