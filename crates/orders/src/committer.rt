// What a committer tells its vault before there is a message.
ghost use Rattle.std.specs.Prelude.{◌≡◌};
ghost use Rattle.theory.specs.Group.{readied as readied-of};
ghost use Rattle.theory.specs.Tree.{Tree};
ghost use Rattle.ratchet_tree.specs.declared.member.PublicKey.{PublicKey as Key};
ghost use Rattle.messages.specs.Take.{change_asked, fresh_in};
ghost use Rattle.orders.specs.Answered.{Commits};

use crate::order::Order;
use crate::view::CommitView;
use commits::{Commit, CommitError, ready};
use messages::{Handset, MessageChange};
use ratchet_tree::PublicKey;
use std::alloc::Global;

// The newcomer's leaf key; where nobody comes, any key does, since it is not looked at. A message has the committer's
// own for that, and here there is none yet.
fn newcomer_key(change: MessageChange) -> PublicKey
    ensures { (own : Key) (t : Tree Key) → readied-of (change_asked change) result t ≡ readied-of (change_asked change) (fresh_in own change) t }
{
    match change {
        MessageChange::Add { leaf_key, .. } => leaf_key,
        _ => PublicKey([0; 32]),
    }
}

// The orders of the handset's own member for a commit that it makes; or why it may not.
pub fn committer_orders(
    alloc: Global,
    handset: &Handset,
    change: MessageChange,
) -> Result<Vec<Order>, CommitError>
    ensures orders { Commits handset.now change result }
{
    let commit = Commit {
        committer: handset.member,
        change: change.asked(),
    };
    let readied = ready(
        alloc,
        &handset.tree,
        handset.epoch,
        commit,
        newcomer_key(change),
    )?;
    let view = CommitView {
        committer: handset.member,
        change,
        before: handset.tree.as_part(),
        readied: readied.as_part(),
    };
    let mut orders = Vec::new(alloc);
    view.commit(alloc, &mut orders)?;
    Ok(orders)
}
