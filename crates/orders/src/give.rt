// Orders that are written out, one after the other.
ghost use Rattle.std.specs.Prelude.{map};
ghost use Rattle.orders.specs.Given.{Gives};
ghost use Rattle.orders.specs.Order.{order_of};

use crate::order::Order;
use std::alloc::AllocError;

// Appends these orders. Each role appends to the caller's list: a writer round it would have that one field, and only
// hand it on.
pub fn give(out: &mut Vec<Order>, orders: &[Order]) -> Result<(), AllocError>
    ensures { Gives (map order_of orders.now) out.old.items out.new.items result }
{
    out.extend_from_slice(orders)
}
