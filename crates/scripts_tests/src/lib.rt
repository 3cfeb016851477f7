#![tactic(auto)]

// Tests of the lines of a script.
#[cfg(test)]
mod tests {
    use scripts::line::{read_founder, read_line, write_line};
    use scripts::lines::{line_count, too_long};
    use std::test::Fail;

    #[test]
    fn line_forms(rt: HostRuntime) -> Result<(), Fail> {
        // a line, whether it is a founder's, and whether it is a commit's
        let rows: [(&[u8], bool, bool); 31] = [
            (b"0", true, false),
            (b"65535", true, false),
            (b"65536", false, false),
            (b"99999999999999999999", false, false),
            (b"", false, false),
            (b"00", false, false),
            (b"007", false, false),
            (b"+1", false, false),
            (b"-1", false, false),
            (b"1\t", false, false),
            (b"1\0", false, false),
            (b"1\xc3\xa9", false, false),
            (b"add 0 1", false, true),
            (b"add 65535 0", false, true),
            (b"remove 1 0", false, true),
            (b"renew 0", false, true),
            (b"add 0", false, false),
            (b"add 0 1 2", false, false),
            (b"add 0 65536", false, false),
            (b"add 00 1", false, false),
            (b"add +1 1", false, false),
            (b"Add 0 1", false, false),
            (b"add  0 1", false, false),
            (b"add\t0 1", false, false),
            (b" add 0 1", false, false),
            (b"add 0 1 ", false, false),
            (b"add 0 1\r", false, false),
            (b"renew", false, false),
            (b"renew ", false, false),
            (b"renew 0 1", false, false),
            (b"read 0", false, false),
        ];
        for (line, founder, commit) in rows {
            assert_eq!(rt; read_founder(line).is_some(), founder);
            match read_line(line) {
                None => assert!(rt; !commit),
                Some(read) => {
                    let mut out = Vec::new(rt.alloc());
                    write_line(&mut out, read)?;
                    assert!(rt; commit && out.as_slice() == line);
                }
            }
        }
        Ok(())
    }

    #[test]
    fn line_counts(rt: HostRuntime) -> Result<(), Fail> {
        assert_eq!(rt; line_count(b""), 0);
        assert_eq!(rt; line_count(b"0\nrenew 0"), 2);
        assert_eq!(rt; line_count(b"0\nrenew 0\n"), 2);
        assert_eq!(rt; line_count(b"0\n\n"), 2);
        let mut input = vec![in rt.alloc(); b'\n'; 4096]?;
        assert_eq!(rt; line_count(&input), 4096);
        assert!(rt; !too_long(&input));
        input.push(b'0')?;
        assert_eq!(rt; line_count(&input), 4097);
        assert!(rt; too_long(&input));
        Ok(())
    }
}
