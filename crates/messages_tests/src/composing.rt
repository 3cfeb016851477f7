// What a committer makes of its vault's answers, and what others make of that. The numbers are from docs/RULES.md, by hand.
#[cfg(test)]
mod tests {
    use commits::Change::{Add, Remove, Renew};
    use commits::{Change, CommitError, Epoch};
    use messages::{Handset, MessageChange, VaultAnswers, compose, take};
    use ratchet_tree::{MemberId, PublicKey, RatchetTree};
    use std::alloc::Global;
    use std::process::Abort;
    use std::test::Fail;

    // A member's handset in a group of 0 to `last`; `taking` has a group of two of its own.
    fn handset(alloc: Global, member: u16, epoch: u32, last: u16) -> Result<Handset, Fail> {
        let mut tree = RatchetTree::founded(alloc, MemberId(0), PublicKey([0; 32]))?;
        for id in 0..last {
            tree = tree
                .with_member(alloc, MemberId(id + 1), PublicKey([1; 32]))
                .map_err(|_| Fail::new("no memory for the tree"))?;
        }
        Ok(Handset {
            member: MemberId(member),
            tree,
            epoch: Epoch(epoch),
        })
    }

    fn with_keys(change: Change) -> MessageChange {
        match change {
            Renew => MessageChange::Renew,
            Remove(member) => MessageChange::Remove(member),
            Add(member) => MessageChange::Add {
                member,
                leaf_key: PublicKey([5; 32]),
                init_key: PublicKey([6; 32]),
            },
        }
    }

    fn number(error: CommitError) -> Result<u8, Fail> {
        match error {
            CommitError::Refused(refusal) => Ok(refusal.number()),
            CommitError::OutOfMemory => Err(Fail::new("no memory for the message")),
        }
    }

    // What the handset of this member makes in a group of 0 and 1 of so many halves and bytes of boxes; 0 where it makes a message, and 0, 1 and the newcomer take it.
    fn answer(
        rt: &impl Abort,
        alloc: Global,
        maker: &Handset,
        change: Change,
        halves: u8,
        boxes: usize,
    ) -> Result<u8, Fail> {
        let keys: Vec<PublicKey> = (0..halves).map(|i| PublicKey([i; 32])).collect(alloc)?;
        let sealed = vec![in alloc; 4; boxes]?;
        let answers = VaultAnswers {
            halves: &keys,
            boxes: &sealed,
        };
        match compose(alloc, maker, with_keys(change), answers) {
            Ok(bytes) => taken(rt, alloc, maker.epoch.0, change, &bytes),
            Err(error) => number(error),
        }
    }

    // What the handsets of 0 and 1, and of whom an add names, answer: 0 where all take the message and come to the next epoch.
    fn taken(
        rt: &impl Abort,
        alloc: Global,
        epoch: u32,
        change: Change,
        bytes: &[u8],
    ) -> Result<u8, Fail> {
        let newcomer = if let Add(member) = change {
            member.0
        } else {
            0
        };
        for member in [0, 1, newcomer] {
            let mut taker = handset(alloc, member, epoch, 1)?;
            if let Err(error) = take(alloc, &mut taker, bytes) {
                return number(error);
            }
            assert_eq!(rt; taker.epoch.0.saturating_sub(epoch), 1);
        }
        Ok(0)
    }

    #[test]
    fn messages_made(rt: HostRuntime) -> Result<(), Fail> {
        // whose handset, its epoch, what is asked, halves, bytes of boxes, and the number
        let rows: [(u16, u32, Change, u8, usize, u8); 30] = [
            (0, 7, Renew, 2, 48, 0),
            (1, 7, Renew, 2, 48, 0),
            (0, 0, Renew, 2, 48, 0),
            (0, 4294967294, Renew, 2, 48, 0),
            (0, 7, Remove(MemberId(1)), 1, 0, 0),
            (1, 7, Remove(MemberId(0)), 1, 0, 0),
            (0, 7, Add(MemberId(2)), 3, 144, 0),
            (1, 7, Add(MemberId(2)), 3, 144, 0),
            (0, 7, Add(MemberId(65534)), 3, 144, 0),
            // no leaf key, too few or too many keys
            (0, 7, Renew, 0, 48, 7),
            (0, 7, Renew, 1, 48, 7),
            (0, 7, Renew, 3, 48, 7),
            (0, 7, Remove(MemberId(1)), 0, 0, 7),
            (0, 7, Remove(MemberId(1)), 2, 0, 7),
            // too few or too many boxes, or a part of one
            (0, 7, Renew, 2, 0, 7),
            (0, 7, Renew, 2, 96, 7),
            (0, 7, Renew, 2, 47, 7),
            (0, 7, Renew, 2, 49, 7),
            (0, 7, Add(MemberId(2)), 3, 96, 7),
            (0, 7, Remove(MemberId(1)), 1, 1, 7),
            // who may not, whatever the vault gave
            (9, 7, Renew, 2, 48, 3),
            (9, 7, Add(MemberId(9)), 3, 144, 3),
            (9, 7, Renew, 0, 0, 3),
            (0, 7, Remove(MemberId(0)), 1, 0, 4),
            (0, 7, Remove(MemberId(5)), 0, 0, 4),
            (0, 7, Remove(MemberId(65535)), 1, 0, 4),
            (0, 7, Add(MemberId(1)), 3, 144, 5),
            (0, 7, Add(MemberId(65535)), 0, 0, 5),
            (0, 4294967295, Renew, 2, 48, 9),
            (9, 4294967295, Renew, 0, 0, 9),
        ];
        for (member, epoch, change, halves, boxes, number) in rows {
            let maker = handset(rt.alloc(), member, epoch, 1)?;
            let found = answer(&rt, rt.alloc(), &maker, change, halves, boxes)?;
            assert_eq!(rt; found, number);
        }
        Ok(())
    }

    #[test]
    fn full_group(rt: HostRuntime) -> Result<(), Fail> {
        let maker = handset(rt.alloc(), 0, 7, 1023)?;
        assert_eq!(rt;
            answer(&rt, rt.alloc(), &maker, Add(MemberId(1024)), 3, 144)?,
            6
        );
        assert_eq!(rt;
            answer(&rt, rt.alloc(), &maker, Add(MemberId(5)), 3, 144)?,
            5
        );
        Ok(())
    }
}
