// Letters spoilt in every way, each with its number. The numbers are from docs/RULES.md, by hand; kinds are bytes, since
// wrong ones are among them, and 0 is no refusal.
#[cfg(test)]
mod tests {
    use commits::{CommitError, Epoch};
    use messages::{Handset, take};
    use ratchet_tree::{MemberId, PublicKey, RatchetTree};
    use std::alloc::Global;
    use std::test::Fail;

    // What the handset of this member answers to some bytes, in a group of 0 and 1 at an epoch; 0 where it takes them.
    fn answer(alloc: Global, member: u16, epoch: u32, bytes: &[u8]) -> Result<u8, Fail> {
        let founded = RatchetTree::founded(alloc, MemberId(0), PublicKey([0; 32]))?;
        let tree = founded
            .with_member(alloc, MemberId(1), PublicKey([1; 32]))
            .map_err(|_| Fail::new("no memory for the tree"))?;
        let mut handset = Handset {
            member: MemberId(member),
            tree,
            epoch: Epoch(epoch),
        };
        match take(alloc, &mut handset, bytes) {
            Ok(_) => Ok(0),
            Err(CommitError::Refused(refusal)) => Ok(refusal.number()),
            Err(CommitError::OutOfMemory) => Err(Fail::new("no memory for the letter")),
        }
    }

    // A letter of epoch 8 by member 0: the byte of its kind, whatever it is, the other member, how many node keys and boxes.
    fn letter(
        alloc: Global,
        kind: u8,
        other: [u8; 2],
        keys: u8,
        boxes: u8,
    ) -> Result<Vec<u8>, Fail> {
        let mut bytes = Vec::new(alloc);
        bytes.extend_from_slice(&[5, 0, 0, 0, 8, kind, 0, 0])?;
        bytes.extend_from_slice(&other)?;
        if kind == 3 {
            bytes.extend_from_slice(&[7; 64])?;
        }
        bytes.extend_from_slice(&[2; 32])?;
        bytes.push(keys)?;
        bytes.extend_from_slice(&vec![in alloc; 3; 32 * usize::from(keys)]?)?;
        bytes.extend_from_slice(&[0, boxes])?;
        bytes.extend_from_slice(&vec![in alloc; 4; 48 * usize::from(boxes)]?)?;
        Ok(bytes)
    }

    #[test]
    fn letters(rt: HostRuntime) -> Result<(), Fail> {
        // kind, other member, node keys, boxes, whose handset, and the number
        let rows: [(u8, [u8; 2], u8, u8, u16, u8); 26] = [
            (1, [255, 255], 1, 1, 1, 0),
            (1, [255, 255], 1, 1, 0, 0),
            (1, [255, 255], 1, 1, 9, 3),
            (1, [255, 255], 0, 1, 1, 7),
            (1, [255, 255], 2, 1, 1, 7),
            (1, [255, 255], 1, 0, 1, 7),
            (1, [255, 255], 1, 2, 1, 7),
            (1, [255, 255], 255, 255, 1, 7),
            (1, [0, 1], 1, 1, 1, 1),
            (0, [255, 255], 1, 1, 1, 1),
            (4, [255, 255], 1, 1, 1, 1),
            (2, [0, 1], 0, 0, 1, 0),
            (2, [0, 1], 0, 0, 0, 0),
            (2, [0, 1], 1, 0, 0, 7),
            (2, [0, 0], 0, 0, 1, 4),
            (2, [0, 5], 0, 0, 1, 4),
            (2, [255, 255], 0, 0, 1, 4),
            (3, [0, 2], 2, 3, 1, 0),
            (3, [0, 2], 2, 3, 2, 0),
            (3, [0, 2], 1, 3, 1, 7),
            (3, [0, 2], 3, 3, 1, 7),
            (3, [0, 2], 2, 2, 1, 7),
            (3, [0, 2], 2, 4, 1, 7),
            (2, [0, 1], 0, 1, 0, 7),
            (3, [0, 1], 2, 3, 1, 5),
            (3, [255, 255], 2, 3, 1, 5),
        ];
        for (kind, other, keys, boxes, member, number) in rows {
            let bytes = letter(rt.alloc(), kind, other, keys, boxes)?;
            assert_eq!(rt; answer(rt.alloc(), member, 7, &bytes)?, number);
        }
        Ok(())
    }

    #[test]
    fn spoilt_bytes(rt: HostRuntime) -> Result<(), Fail> {
        let alloc = rt.alloc();
        let mut bytes = letter(alloc, 3, [0, 2], 2, 3)?;
        // the epoch of the handset, and the number
        let epochs: [(u32, u8); 5] = [(7, 0), (6, 2), (8, 2), (0, 2), (4294967295, 9)];
        for (epoch, number) in epochs {
            assert_eq!(rt; answer(alloc, 1, epoch, &bytes)?, number);
        }
        for length in 0..bytes.len() {
            assert_eq!(rt; answer(alloc, 1, 7, &bytes[0..length])?, 1);
        }
        bytes.push(0)?;
        assert_eq!(rt; answer(alloc, 1, 7, &bytes)?, 1);
        Ok(())
    }

    // The bytes with one of them replaced.
    fn patched(alloc: Global, bytes: &[u8], at: usize, value: u8) -> Result<Vec<u8>, Fail> {
        let mut out = Vec::from_slice(alloc, bytes)?;
        if let Some(byte) = out.get_mut(at) {
            *byte = value;
        }
        Ok(out)
    }

    // A renewal, a removal of 1 and an add of 2, each as the rules have it.
    fn good_letter(alloc: Global, kind: u8) -> Result<Vec<u8>, Fail> {
        match kind {
            1 => letter(alloc, 1, [255, 255], 1, 1),
            2 => letter(alloc, 2, [0, 1], 0, 0),
            _ => letter(alloc, 3, [0, 2], 2, 3),
        }
    }

    #[test]
    fn one_byte_off(rt: HostRuntime) -> Result<(), Fail> {
        // kind of the letter, which byte, its value, whose handset, and the number
        let rows: [(u8, usize, u8, u16, u8); 48] = [
            // format and kind; the kind of a renewal made 2 is a removal of nobody
            (1, 0, 0, 1, 1),
            (1, 0, 4, 1, 1),
            (1, 0, 6, 1, 1),
            (1, 0, 4, 9, 1),
            (1, 5, 0, 1, 1),
            (1, 5, 2, 1, 4),
            (1, 5, 3, 1, 1),
            (1, 5, 4, 1, 1),
            (1, 5, 255, 1, 1),
            (2, 5, 1, 1, 1),
            (2, 5, 3, 1, 1),
            (3, 5, 1, 1, 1),
            (3, 5, 2, 1, 1),
            // epoch
            (1, 1, 8, 1, 2),
            (1, 2, 1, 1, 2),
            (1, 3, 8, 1, 2),
            (1, 4, 7, 1, 2),
            (1, 4, 9, 1, 2),
            (1, 4, 9, 9, 2),
            // committer: not seated, or another who is
            (1, 7, 1, 1, 0),
            (1, 7, 5, 1, 3),
            (1, 6, 1, 1, 3),
            (2, 7, 1, 1, 4),
            (2, 7, 5, 1, 3),
            (3, 7, 5, 2, 3),
            // other member
            (1, 9, 254, 1, 1),
            (1, 8, 254, 1, 1),
            (1, 8, 0, 1, 1),
            (2, 9, 0, 1, 4),
            (2, 8, 1, 1, 4),
            (3, 9, 0, 1, 5),
            (3, 9, 1, 1, 5),
            (3, 9, 3, 2, 3),
            (3, 8, 2, 1, 0),
            // keys and boxes may be any
            (1, 10, 9, 1, 0),
            (1, 43, 9, 1, 0),
            (1, 124, 9, 1, 0),
            // number of node keys
            (1, 42, 0, 1, 1),
            (1, 42, 2, 1, 1),
            (2, 42, 1, 1, 1),
            (3, 106, 1, 1, 1),
            (3, 106, 3, 1, 1),
            // number of boxes
            (1, 75, 1, 1, 1),
            (1, 76, 0, 1, 1),
            (1, 76, 2, 1, 1),
            (2, 44, 1, 1, 1),
            (3, 172, 2, 1, 1),
            (3, 172, 4, 1, 1),
        ];
        let alloc = rt.alloc();
        for (kind, at, value, member, number) in rows {
            let good = good_letter(alloc, kind)?;
            let bytes = patched(alloc, &good, at, value)?;
            assert_eq!(rt; answer(alloc, member, 7, &bytes)?, number);
        }
        Ok(())
    }

    #[test]
    fn bytes_exchanged(rt: HostRuntime) -> Result<(), Fail> {
        // kind of the letter, two bytes and their values, whose handset, and the number
        let rows: [(u8, usize, u8, usize, u8, u16, u8); 7] = [
            // epoch 8
            (1, 1, 8, 4, 0, 1, 2),
            (1, 3, 8, 4, 0, 1, 2),
            // committer 1
            (1, 6, 1, 7, 0, 1, 3),
            // other member: the removal of 256, and the add of 512, which is one that the rules allow
            (2, 8, 1, 9, 0, 1, 4),
            (3, 8, 2, 9, 0, 1, 0),
            (3, 8, 2, 9, 0, 2, 3),
            // number of boxes
            (1, 75, 1, 76, 0, 1, 1),
        ];
        let alloc = rt.alloc();
        for (kind, at, value, also, other, member, number) in rows {
            let good = good_letter(alloc, kind)?;
            let half = patched(alloc, &good, at, value)?;
            let bytes = patched(alloc, &half, also, other)?;
            assert_eq!(rt; answer(alloc, member, 7, &bytes)?, number);
        }
        Ok(())
    }
}
