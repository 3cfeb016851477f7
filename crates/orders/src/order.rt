// An order to the vault.
use ratchet_tree::PublicKey;

// A slot of the vault, 0 to 63.
#[derive(Clone, Copy, PartialEq, Eq, Debug)]
pub struct Slot(pub u8);

// A way to make one secret from another.
#[derive(Clone, Copy, PartialEq, Eq, Debug)]
pub enum Way {
    Up,
    Lock,
    Seed,
    Talk,
}

#[derive(Clone, Copy, PartialEq, Eq, Debug)]
pub enum Order {
    Draw(Slot),
    Derive {
        way: Way,
        from: Slot,
        into: Slot,
    },
    Mix {
        seed: Slot,
        path: Slot,
        into: Slot,
    },
    // A box with what the slot holds, for whoever has the key with that public half.
    Seal {
        from: Slot,
        key: PublicKey,
    },
    // Boxes are numbered from 0, as they stand in the message.
    Open {
        number: usize,
        key: Slot,
        into: Slot,
    },
    Forget(Slot),
    // The public half of the key in the slot.
    Public(Slot),
}
