// What each slot of the vault is for.
ghost use Rattle.std.specs.Prelude.{◌≡◌};
ghost use Rattle.vault_theory.specs.Order.{slot_of_key, slot_of_path};

use crate::height::Height;
use crate::order::Slot;

pub const TALK_SLOT: Slot = Slot(0);

pub const SEED_SLOT: Slot = Slot(1);

// The node keys stand behind it, by their height.
pub const LEAF_SLOT: Slot = Slot(2);

const EVEN_PATH_SLOT: Slot = Slot(19);

const ODD_PATH_SLOT: Slot = Slot(20);

pub const EPOCH_SLOT: Slot = Slot(21);

pub const INIT_SLOT: Slot = Slot(22);

// The key that a member holds at a height: its leaf key at 0, and then node keys.
pub fn key_slot(height: Height) -> Slot
    ensures { result.0 ≡ slot_of_key height.value }
{
    Slot(LEAF_SLOT.0 + height.value as u8)
}

// The path secret of a level. Two slots by turns, since the lower secret is still there while the next is made.
pub fn path_slot(level: usize) -> Slot
    ensures { result.0 ≡ slot_of_path level }
{
    if level % 2 == 0 {
        EVEN_PATH_SLOT
    } else {
        ODD_PATH_SLOT
    }
}
