#![tactic(auto)]

// Tree files, good ones and ones spoilt in every way, each with its number.
#[cfg(test)]
mod tests {
    use commits::Epoch;
    use ratchet_tree::RatchetTree;
    use std::alloc::Global;
    use std::process::Abort;
    use std::test::Fail;
    use tree_files::{FileError, read_tree, write_tree};

    // The bytes that a row stands for: a digit is that byte, `a` and `b` are 10 and 11, `y` and `z` 254 and 255,
    // `K` a key of 32 bytes; spaces are for the eye.
    fn file(alloc: Global, row: &[u8]) -> Result<Vec<u8>, Fail> {
        let mut bytes = Vec::new(alloc);
        for sign in row {
            match *sign {
                b' ' => {}
                b'a' => bytes.push(10)?,
                b'b' => bytes.push(11)?,
                b'y' => bytes.push(254)?,
                b'z' => bytes.push(255)?,
                b'K' => bytes.extend_from_slice(&[7; 32])?,
                digit => bytes.push(digit.wrapping_sub(b'0'))?,
            }
        }
        Ok(bytes)
    }

    fn is_written_as(
        rt: &impl Abort,
        alloc: Global,
        epoch: Epoch,
        tree: &RatchetTree,
        bytes: &[u8],
    ) -> Result<(), Fail> {
        let mut out = Vec::new(alloc);
        write_tree(&mut out, epoch, tree).map_err(|_| Fail::new(
            "a tree that was read is not written",
        ))?;
        assert!(rt; out.as_slice() == bytes);
        Ok(())
    }

    // The number of the refusal; 0 for a file that is read, and then it is written as it was.
    fn answer(rt: &impl Abort, alloc: Global, bytes: &[u8]) -> Result<u8, Fail> {
        match read_tree(alloc, bytes) {
            Ok((epoch, tree)) => {
                is_written_as(rt, alloc, epoch, &tree, bytes)?;
                Ok(0)
            }
            Err(FileError::Refused(refusal)) => Ok(refusal.number()),
            Err(FileError::OutOfMemory) => Err(Fail::new("no memory for the file")),
        }
    }

    #[test]
    fn files(rt: HostRuntime) -> Result<(), Fail> {
        // a file, and the number: format, epoch, d, then leaves and parents in turn
        let rows: [(&[u8], u8); 44] = [
            // nobody, or one, or two; the last epoch; the largest number
            (b"6 0000 0  0", 0),
            (b"6 0000 1  0 0 0", 0),
            (b"6 0000 0  105K", 0),
            (b"6 zzzz 0  105K", 0),
            (b"6 0000 0  1zyK", 0),
            (b"6 0001 1  100K 1K00 101K", 0),
            (b"6 0001 1  100K 0 101K", 0),
            // unmerged: one of two, two of four, one of a group in a tree of eight
            (b"6 0001 1  100K 1K0101 101K", 0),
            (b"6 0003 2  100K 0 106K 1K020706 107K 0 101K", 0),
            (
                b"6 0006 3  100K 0 105K 1K0105 102K 0 103K 1K00 104K 0 0 0 0 0 0",
                0,
            ),
            // a format that isn't ours
            (b"", 1),
            (b"5 0000 0  0", 1),
            (b"7 0000 0  0", 1),
            (b"0 0000 0  0", 1),
            // a d with too few nodes, with too many, and too large
            (b"6 0000 1  0", 1),
            (b"6 0000 a  0", 1),
            (b"6 0000 0  0 0 0", 1),
            (b"6 0000 b  0", 1),
            (b"6 0000 z  0", 1),
            // a leaf or a parent that begins with another byte
            (b"6 0000 0  2", 1),
            (b"6 0000 0  205K", 1),
            (b"6 0000 0  z05K", 1),
            (b"6 0000 1  0 2 0", 1),
            (b"6 0001 1  100K 2K00 101K", 1),
            (b"6 0001 1  100K zK00 101K", 1),
            // one unmerged member more than there are, and one less
            (b"6 0001 1  100K 1K01 101K", 1),
            (b"6 0001 1  100K 1K0201 101K", 1),
            (b"6 0001 1  100K 1K0001 101K", 1),
            // cut short and against a rule: the first cause decides
            (b"6 0001 1  100K 0 100", 1),
            (b"6 0000 0  1zzK 0", 1),
            // the number of nobody
            (b"6 0000 0  1zzK", 8),
            (b"6 zzzz 0  1zzK", 8),
            // a member at two leaves, of one parent and of two halves
            (b"6 0001 1  100K 0 100K", 8),
            (b"6 0001 2  100K 0 0 0 0 0 100K", 8),
            // unmerged and seated nowhere, or not below
            (b"6 0001 1  100K 1K0105 101K", 8),
            (b"6 0001 1  100K 1K01zz 101K", 8),
            (b"6 0001 2  100K 1K0102 101K 0 102K 0 0", 8),
            // unmerged and named twice
            (b"6 0001 1  100K 1K020101 101K", 8),
            (b"6 0001 2  100K 0 101K 1K03020102 102K 0 0", 8),
            // all who are below are unmerged
            (b"6 0001 1  100K 1K020100 101K", 8),
            (b"6 0001 1  100K 1K0100 0", 8),
            (b"6 0001 2  100K 1K020001 101K 1K00 102K 0 0", 8),
            // a key over nobody
            (b"6 0000 1  0 1K00 0", 8),
            (b"6 0000 2  100K 0 101K 0 0 1K00 0", 8),
        ];
        for (row, number) in rows {
            let bytes = file(rt.alloc(), row)?;
            assert_eq!(rt; answer(&rt, rt.alloc(), &bytes)?, number);
        }
        Ok(())
    }

    #[test]
    fn every_length(rt: HostRuntime) -> Result<(), Fail> {
        let alloc = rt.alloc();
        let mut bytes = file(
            alloc,
            b"6 0006 3  100K 0 105K 1K0105 102K 0 103K 1K00 104K 0 0 0 0 0 0",
        )?;
        for length in 0..bytes.len() {
            assert_eq!(rt; answer(&rt, alloc, &bytes[0..length])?, 1);
        }
        assert_eq!(rt; answer(&rt, alloc, &bytes)?, 0);
        bytes.push(0)?;
        assert_eq!(rt; answer(&rt, alloc, &bytes)?, 1);
        Ok(())
    }

    // The largest group, with a key at every parent.
    #[test]
    fn largest_tree(rt: HostRuntime) -> Result<(), Fail> {
        let alloc = rt.alloc();
        let mut bytes = file(alloc, b"6 0000 a")?;
        for index in 0..2047u16 {
            bytes.push(1)?;
            if index % 2 == 0 {
                bytes.extend_from_slice(&(index / 2).to_be_bytes())?;
                bytes.extend_from_slice(&[7; 32])?;
            } else {
                bytes.extend_from_slice(&[7; 32])?;
                bytes.extend_from_slice(&[0, 0])?;
            }
        }
        assert_eq!(rt; answer(&rt, alloc, &bytes)?, 0);
        Ok(())
    }
}
