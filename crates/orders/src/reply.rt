// A handset answers a message with the orders to its vault.
ghost use Rattle.std.specs.Prelude.{◌≡◌, List, map, IfOk};
ghost use Rattle.vault_theory.specs.Capped.{cap_order};
ghost use Rattle.vault_theory.specs.Order.{Order as Meant};
ghost use Rattle.ratchet_tree.specs.declared.member.PublicKey.{PublicKey as Key};
ghost use Rattle.messages.specs.Message.{message_of};
ghost use Rattle.orders.specs.Answered.{AnswersOr, Orders, Responds, Sees, Welcomes};
ghost use Rattle.orders.specs.Order.{order_of};
ghost use Rattle.orders.specs.Chips.{ChipsServed};

use crate::order::Order;
use crate::view::CommitView;
use commits::CommitError;
use messages::{CommitMessage, Handset, accept, read_message, take_message};
use std::alloc::{AllocError, Global};

// The orders for a message that the handset takes, as they are worked out from its commit; or why it does not take it.
fn answer_with<F: FnOnce(CommitView) -> Result<Vec<Order>, AllocError>>(
    alloc: Global,
    handset: &Handset,
    message: CommitMessage,
    work_out: F,
) -> Result<Vec<Order>, CommitError>
    requires { F.IsAlwaysCallable work_out }
    ensures { (more : List (Meant Key)) → ((view : _) (r : _) → Sees handset.now (message_of message.entry) view → F.post work_out view r → IfOk r (λ v. map order_of v.items ≡ map cap_order more)) → AnswersOr handset.now (message_of message.entry) more result }
{
    let readied = accept(alloc, handset, message)?;
    let view = CommitView {
        committer: message.committer,
        change: message.change,
        before: handset.tree.as_part(),
        readied: readied.as_part(),
    };
    Ok(work_out(view)?)
}

// The orders of the handset's member for the commit of a message; or why the handset does not take it.
pub fn orders_for(
    alloc: Global,
    handset: &Handset,
    message: CommitMessage,
) -> Result<Vec<Order>, CommitError>
    ensures orders { Orders handset.now (message_of message.entry) result }
{
    answer_with(
        alloc,
        handset,
        message,
        |view| view.orders(alloc, handset.member),
    )
}

// The orders of a newcomer that has drawn its keys already, for the message that adds it.
pub fn welcomed_orders(
    alloc: Global,
    handset: &Handset,
    message: CommitMessage,
) -> Result<Vec<Order>, CommitError>
    ensures orders { Welcomes handset.now (message_of message.entry) result }
{
    answer_with(
        alloc,
        handset,
        message,
        |view| view.welcomed_orders(alloc, handset.member),
    )
}

// The orders come from the tree before the letter, so they are worked out before it is taken.
fn answer(alloc: Global, handset: &mut Handset, bytes: &[u8]) -> Result<Vec<Order>, CommitError>
    ensures { Responds handset.old bytes.now handset.new result }
{
    let message = read_message(bytes)?;
    let orders = orders_for(alloc, handset, message)?;
    take_message(alloc, handset, message)?;
    Ok(orders)
}

// The whole answer to a letter: its orders, and the handset has taken it; or why not, and the handset is as it was.
// What that does to the chips of every run is `chips`.
pub fn respond(
    alloc: Global,
    handset: &mut Handset,
    bytes: &[u8],
) -> Result<Vec<Order>, CommitError>
    ensures orders { Responds handset.old bytes.now handset.new result }
    ensures chips { ChipsServed }
{
    answer(alloc, handset, bytes)
}
