// Plays a script of commits and prints the group's tree after each.
#![tactic(auto)]

use playback::play;
use std::env;
use std::io::{Read, Write};
use std::process::ExitCode;

const HELP: &str = "usage: station < SCRIPT

Plays a script and prints, for each commit, the epoch, how many boxes and node
keys its message has, and the tree: leaves and parents from the left, `.` for a
blank one, a leaf's member, and `*` for a parent with a key, followed by its
unmerged members, latest first.

The script's first line is the founder's number, and prints nothing. A founder
that is refused, and an empty script, print the refusal's number alone. Each
other line is one of
  add M N       M adds N
  renew M       M renews its keys
  remove M N    M removes N
with numbers from 0 to 65535. A line that is refused prints its number alone:
  1 no such line, or more than 4096 lines      5 N is seated, or is 65535
  3 M is not seated                            6 1024 members are seated
  4 N is not seated, or is M                   8 the founder is 65535
  9 the last epoch has been reached
A refusal changes nothing, and the play goes on; it is an answer, so the status
is 0. A wrong call, and an argument that is not UTF-8, end with status 1.
";

fn run(rt: &HostRuntime) -> anyhow::Result<ExitCode> {
    let alloc = rt.alloc();
    let words: Vec<String> = env::args(rt)?.collect(alloc)?;
    match words.as_slice() {
        [] | [_] => {
            let mut input = Vec::new(alloc);
            rt.stdin().read_to_end(&mut input)?;
            let output = play(alloc, &input)?;
            rt.stdout().write_all(&output)?;
            Ok(ExitCode::SUCCESS)
        }
        [_, word] if word.as_str() == "--help" => {
            rt.print(HELP)?;
            Ok(ExitCode::SUCCESS)
        }
        _ => {
            rt.eprintln(
                "station: takes no argument but --help; the script comes on standard input",
            )?;
            Ok(ExitCode::FAILURE)
        }
    }
}

fn main(rt: HostRuntime) -> anyhow::Result<ExitCode> {
    run(&rt)
}
