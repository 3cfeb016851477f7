// The roles in a commit, and what each of them orders.
ghost use Rattle.std.specs.Prelude.{◌≡◌, map, IfOk};
ghost use Rattle.std.specs.Option.{option_to_list};
ghost use Rattle.vault_theory.specs.Orders.{dropped_for, founding, introduced};
ghost use Rattle.ratchet_tree.specs.Parts.{part_tree};
ghost use Rattle.messages.specs.Take.{change_asked};
ghost use Rattle.vault_theory.specs.Capped.{cap_order};
ghost use Rattle.orders.specs.Given.{Gives};
ghost use Rattle.orders.specs.Order.{order_of};
ghost use Rattle.orders.specs.Roles.{committing_on, init_keys, joining_on, orders_on, staying_on, taking_on, welcomed_on};

use crate::drop::drop_keys;
use crate::epoch::{renew, turn};
use crate::follow::follow;
use crate::give::give;
use crate::leave::leave;
use crate::make::make;
use crate::order::Order;
use crate::slots::{EPOCH_SLOT, INIT_SLOT, LEAF_SLOT, path_slot};
use crate::view::CommitView;
use commits::path_counts;
use messages::MessageChange;
use ratchet_tree::{MemberId, PublicKey};
use std::alloc::{AllocError, Global};

fn init_key(change: MessageChange) -> Option<PublicKey>
    ensures { option_to_list result ≡ init_keys change }
{
    match change {
        MessageChange::Add { init_key, .. } => Some(init_key),
        _ => None,
    }
}

// What a newcomer draws before the message is made.
fn introduce(out: &mut Vec<Order>) -> Result<(), AllocError>
    ensures { Gives introduced out.old.items out.new.items result }
{
    let orders = [
        Order::Draw(LEAF_SLOT),
        Order::Public(LEAF_SLOT),
        Order::Draw(INIT_SLOT),
        Order::Public(INIT_SLOT),
    ];
    give(out, &orders)
}

impl CommitView<'_> {
    // The node keys that a removal takes. They go first: no box is sealed to them.
    fn drop_for(self, member: MemberId, out: &mut Vec<Order>) -> Result<(), AllocError>
        ensures { Gives (dropped_for member.0 (change_asked self.entry.change) (part_tree self.entry.before)) out.old.items out.new.items result }
    {
        match self.change {
            MessageChange::Remove(removed) => drop_keys(self.before, member, removed, out),
            _ => Ok(()),
        }
    }

    // Another member than the committer, who was there and stays.
    fn stay(self, member: MemberId, out: &mut Vec<Order>) -> Result<(), AllocError>
        ensures { Gives (map cap_order (staying_on member.0 self.entry.committer.0 (change_asked self.entry.change) (part_tree self.entry.before) (part_tree self.entry.readied))) out.old.items out.new.items result }
    {
        self.drop_for(member, out)?;
        let level = follow(self.readied, member, self.committer, out)?;
        turn(level, None, out)
    }

    // The committer.
    pub fn commit(self, alloc: Global, out: &mut Vec<Order>) -> Result<(), AllocError>
        ensures { Gives (committing_on self.entry.committer.0 (change_asked self.entry.change) (init_keys self.entry.change) (part_tree self.entry.before) (part_tree self.entry.readied)) out.old.items out.new.items result }
    {
        self.drop_for(self.committer, out)?;
        let orders = [
            Order::Forget(LEAF_SLOT),
            Order::Draw(LEAF_SLOT),
            Order::Public(LEAF_SLOT),
            Order::Draw(path_slot(0)),
        ];
        give(out, &orders)?;
        let level = make(alloc, self.readied, self.committer, out)?;
        turn(level, init_key(self.change), out)
    }

    // What a newcomer does with the message. The welcome box comes after those of the path.
    pub fn enter(self, member: MemberId, out: &mut Vec<Order>) -> Result<(), AllocError>
        ensures { Gives (map cap_order (welcomed_on member.0 self.entry.committer.0 (part_tree self.entry.readied))) out.old.items out.new.items result }
    {
        let counts = path_counts(self.readied, self.committer);
        let orders = [
            Order::Open {
                number: counts.boxes,
                key: INIT_SLOT,
                into: EPOCH_SLOT,
            },
            Order::Forget(INIT_SLOT),
        ];
        give(out, &orders)?;
        let level = follow(self.readied, member, self.committer, out)?;
        give(out, &[Order::Forget(path_slot(level))])?;
        renew(out)
    }

    fn join(self, member: MemberId, out: &mut Vec<Order>) -> Result<(), AllocError>
        ensures { Gives (map cap_order (joining_on member.0 self.entry.committer.0 (part_tree self.entry.readied))) out.old.items out.new.items result }
    {
        introduce(out)?;
        self.enter(member, out)
    }

    // Who isn't the committer: the newcomer, the one who is removed, or one who stays.
    fn take_part(self, member: MemberId, out: &mut Vec<Order>) -> Result<(), AllocError>
        ensures { Gives (map cap_order (taking_on member.0 self.entry.committer.0 (change_asked self.entry.change) (part_tree self.entry.before) (part_tree self.entry.readied))) out.old.items out.new.items result }
    {
        match self.change {
            MessageChange::Remove(removed) if removed == member => leave(self.before, member, out),
            MessageChange::Add {
                member: newcomer,
                ..
            } if newcomer == member => self.join(member, out),
            _ => self.stay(member, out),
        }
    }

    // The orders of a member for the commit.
    pub fn give_orders(
        self,
        alloc: Global,
        member: MemberId,
        out: &mut Vec<Order>,
    ) -> Result<(), AllocError>
        ensures { Gives (map cap_order (orders_on member.0 self.entry.committer.0 (change_asked self.entry.change) (init_keys self.entry.change) (part_tree self.entry.before) (part_tree self.entry.readied))) out.old.items out.new.items result }
    {
        if member == self.committer {
            self.commit(alloc, out)
        } else {
            self.take_part(member, out)
        }
    }

    // The same as a list. Each list is made in three lines: a function that takes the writing as a closure gets no
    // generated contract for one that passes a `&mut` on.
    pub fn orders(self, alloc: Global, member: MemberId) -> Result<Vec<Order>, AllocError>
        ensures { IfOk result (λ v. map order_of v.items ≡ map cap_order (orders_on member.0 self.entry.committer.0 (change_asked self.entry.change) (init_keys self.entry.change) (part_tree self.entry.before) (part_tree self.entry.readied))) }
    {
        let mut orders = Vec::new(alloc);
        self.give_orders(alloc, member, &mut orders)?;
        Ok(orders)
    }

    // Those of a newcomer that has drawn its keys already, as a list.
    pub fn welcomed_orders(self, alloc: Global, member: MemberId) -> Result<Vec<Order>, AllocError>
        ensures { IfOk result (λ v. map order_of v.items ≡ map cap_order (welcomed_on member.0 self.entry.committer.0 (part_tree self.entry.readied))) }
    {
        let mut orders = Vec::new(alloc);
        self.enter(member, &mut orders)?;
        Ok(orders)
    }
}

// What a newcomer draws, and the public halves that it gives for the message.
pub fn newcomer_orders(alloc: Global) -> Result<Vec<Order>, AllocError>
    ensures orders { IfOk result (λ v. map order_of v.items ≡ introduced) }
{
    let mut orders = Vec::new(alloc);
    introduce(&mut orders)?;
    Ok(orders)
}

// A founder's orders: its leaf key, and the secret of epoch 0.
pub fn founder_orders(alloc: Global) -> Result<Vec<Order>, AllocError>
    ensures orders { IfOk result (λ v. map order_of v.items ≡ founding) }
{
    let mut orders = Vec::new(alloc);
    let first = [
        Order::Draw(LEAF_SLOT),
        Order::Public(LEAF_SLOT),
        Order::Draw(EPOCH_SLOT),
    ];
    give(&mut orders, &first)?;
    renew(&mut orders)?;
    Ok(orders)
}
