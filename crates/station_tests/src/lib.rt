#![tactic(auto)]

// Whole scripts, played through the call that `station` makes.
#[cfg(test)]
mod tests {
    use commits::{Change, Commit};
    use playback::play;
    use ratchet_tree::MemberId;
    use scripts::line::write_line;
    use std::alloc::Global;
    use std::process::Abort;
    use std::test::Fail;

    // What is printed ends with these bytes.
    fn ends(rt: &impl Abort, alloc: Global, input: &[u8], end: &[u8]) -> Result<(), Fail> {
        let output = play(alloc, input)?;
        assert!(rt; output.as_slice().ends_with(end));
        Ok(())
    }

    #[test]
    fn whole_scripts(rt: HostRuntime) -> Result<(), Fail> {
        // an input, and all that is printed for it
        let rows: [(&[u8], &[u8]); 16] = [
            (b"", b"1\n"),
            (b"\n", b"1\n"),
            (b"x\nrenew 0\n", b"1\n"),
            (b"00\n", b"1\n"),
            (b"65536\n", b"1\n"),
            (b"65535\nrenew 0\n", b"8\n"),
            (b"0", b""),
            (b"65534\n", b""),
            (b"0\nrenew 0", b"1 0 0 0\n"),
            (b"0\nrenew 0\n", b"1 0 0 0\n"),
            (b"0\n\nrenew 0\n", b"1\n1 0 0 0\n"),
            (
                b"0\nrenew 0\r\nrenew  0\nrenew\t0\nrenew 0\0\nrenew \xc3\xa9\n",
                b"1\n1\n1\n1\n1\n",
            ),
            (
                b"0\nrenew 1\nremove 0 0\nremove 0 65535\nadd 0 0\nadd 0 65535\n",
                b"3\n4\n4\n5\n5\n",
            ),
            (b"7\nadd 7 65534\nadd 7 65534\n", b"1 2 1 7 * 65534\n5\n"),
            (b"0\nread 0\n1\nadd 0 1\n", b"1\n1\n1 2 1 0 * 1\n"),
            (
                b"0\nadd 0 1\nadd 0 2\nadd 0 3\nadd 0 4\nremove 0 1\nadd 4 5\n",
                b"1 2 1 0 * 1\n2 3 2 0 * 1 * 2 . .\n3 4 2 0 * 1 * 2 . 3\n4 5 3 0 * 1 * 2 . 3 * 4 . . . . . .\n5 3 2 0 . . * 2 . 3 * 4 . . . . . .\n6 3 1 0 . 5 *5 2 . 3 * 4 . . . . . .\n",
            ),
        ];
        for (input, printed) in rows {
            let output = play(rt.alloc(), input)?;
            assert!(rt; output.as_slice() == printed);
        }
        Ok(())
    }

    #[test]
    fn longest_script(rt: HostRuntime) -> Result<(), Fail> {
        let alloc = rt.alloc();
        let mut script = Vec::from_slice(alloc, b"0\n")?;
        for _ in 1..4096 {
            script.extend_from_slice(b"renew 0\n")?;
        }
        ends(&rt, alloc, &script, b"\n4095 0 0 0\n")?;
        script.extend_from_slice(b"renew 0\n")?;
        let output = play(alloc, &script)?;
        assert!(rt; output.as_slice() == b"1\n".as_slice());
        Ok(())
    }

    #[test]
    fn full_group(rt: HostRuntime) -> Result<(), Fail> {
        let alloc = rt.alloc();
        let mut script = Vec::from_slice(alloc, b"0\n")?;
        for number in 1..1025u16 {
            let commit = Commit {
                committer: MemberId(0),
                change: Change::Add(MemberId(number)),
            };
            write_line(&mut script, commit)?;
            script.push(b'\n')?;
        }
        ends(&rt, alloc, &script, b" . 1022 . 1023\n6\n")
    }
}
