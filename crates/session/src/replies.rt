// The reply to a message: the orders of the handset's member, one to a line, or the refusal's number; then an empty line.
ghost use Rattle.std.specs.Prelude.{[], ◌∷◌, ◌++◌, map};
ghost use Rattle.ratchet_tree.specs.Keys.{Appends};
ghost use Rattle.commits.specs.Refusals.{number_of};
ghost use Rattle.orders.specs.Order.{order_of};
ghost use Rattle.session.specs.Reply.{Replied, orders_text, refusal_text};
ghost use Rattle.session.specs.Text.{order_text};

use crate::text::write_order;
use commits::{CommitError, Refusal};
use messages::Handset;
use orders::{Order, respond};
use scripts::numbers::write_number;
use std::alloc::{AllocError, Global};

// Appends an order and a newline.
fn write_line(out: &mut Vec<u8>, order: Order) -> Result<(), AllocError>
    ensures { Appends out.old.items (order_text (order_of order) ++ 10 ∷ []) out.new.items result }
{
    write_order(out, order)?;
    out.extend_from_slice(b"\n")
}

// Appends orders, one to a line.
fn write_orders(orders: &[Order], out: &mut Vec<u8>) -> Result<(), AllocError>
    ensures { Appends out.old.items (orders_text (map order_of orders.now)) out.new.items result }
{
    for order in orders {
        write_line(out, *order)?;
    }
    Ok(())
}

// Appends the refusal's number, alone on its line. `playback` has the same two lines for a script: they share
// `write_number`, and a crate for both would have no more.
pub fn refuse(refusal: Refusal, out: &mut Vec<u8>) -> Result<(), AllocError>
    ensures bytes { Appends out.old.items (refusal_text (number_of refusal)) out.new.items result }
{
    write_number(out, u64::from(refusal.number()))?;
    out.extend_from_slice(b"\n")
}

// Takes a message or refuses it, and appends the reply.
pub fn reply(
    alloc: Global,
    handset: &mut Handset,
    message: &[u8],
    out: &mut Vec<u8>,
) -> Result<(), AllocError>
    ensures bytes { Replied handset.old message.now handset.new out.old.items out.new.items result }
{
    match respond(alloc, handset, message) {
        Ok(orders) => write_orders(&orders, out)?,
        Err(CommitError::Refused(refusal)) => refuse(refusal, out)?,
        Err(CommitError::OutOfMemory) => return Err(AllocError),
    }
    out.extend_from_slice(b"\n")
}
