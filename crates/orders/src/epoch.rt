// The epoch: its secret, and what is made from it.
ghost use Rattle.std.specs.Prelude.{map};
ghost use Rattle.std.specs.Option.{option_to_list};
ghost use Rattle.vault_theory.specs.Order.{epoch_slot, seal};
ghost use Rattle.vault_theory.specs.Orders.{renewed, turned};
ghost use Rattle.orders.specs.Given.{Gives};

use crate::give::give;
use crate::order::{Order, Way};
use crate::slots::{EPOCH_SLOT, SEED_SLOT, TALK_SLOT, path_slot};
use ratchet_tree::PublicKey;
use std::alloc::AllocError;

// The new init secret and application secret, from the epoch secret.
pub fn renew(out: &mut Vec<Order>) -> Result<(), AllocError>
    ensures { Gives renewed out.old.items out.new.items result }
{
    let orders = [
        Order::Derive {
            way: Way::Seed,
            from: EPOCH_SLOT,
            into: SEED_SLOT,
        },
        Order::Derive {
            way: Way::Talk,
            from: EPOCH_SLOT,
            into: TALK_SLOT,
        },
        Order::Forget(EPOCH_SLOT),
    ];
    give(out, &orders)
}

// The welcome box, for a newcomer with this init key.
fn welcome(init_key: Option<PublicKey>, out: &mut Vec<Order>) -> Result<(), AllocError>
    ensures { Gives (map (seal epoch_slot) (option_to_list init_key)) out.old.items out.new.items result }
{
    match init_key {
        Some(key) => {
            let order = Order::Seal {
                from: EPOCH_SLOT,
                key,
            };
            give(out, &[order])
        }
        None => Ok(()),
    }
}

// The epoch secret, from the init secret and the path secret that is left at the top, and what is made from it.
pub fn turn(
    level: usize,
    init_key: Option<PublicKey>,
    out: &mut Vec<Order>,
) -> Result<(), AllocError>
    ensures { Gives (turned level (map (seal epoch_slot) (option_to_list init_key))) out.old.items out.new.items result }
{
    let path = path_slot(level);
    let orders = [
        Order::Mix {
            seed: SEED_SLOT,
            path,
            into: EPOCH_SLOT,
        },
        Order::Forget(path),
        Order::Forget(TALK_SLOT),
        Order::Forget(SEED_SLOT),
    ];
    give(out, &orders)?;
    welcome(init_key, out)?;
    renew(out)
}
