// The orders to a vault as definitions, and what becomes of a vault that carries them out. Each function has a theorem as its contract.
// A law answers 0, since there is no code in it: so the list of planted bugs knows it.
#![tactic(auto)]

ghost use Rattle.vault_theory.specs.AtHalves.{RunsAtHalves};
ghost use Rattle.vault_theory.specs.Capped.{BoxesThere, BoxesFew, CapKeeps};
ghost use Rattle.vault_theory.specs.Laws.{Few, Spare};
ghost use Rattle.vault_theory.specs.Layout.{LayoutHolds};
ghost use Rattle.vault_theory.specs.OrdersNatural.{OrdersNaturality};
ghost use Rattle.vault_theory.specs.Slots.{ChipsHold, SlotsKept};
ghost use Rattle.vault_theory.specs.Worked.{WorkedOrders};

#[tactic(auto, using(crate::proofs::Worked::worked_orders))]
pub fn worked_orders() -> u8
    ensures { WorkedOrders }
{
    0
}

// A vault that is laid out for a group whose tree is level holds what its member holds, and nothing more.
#[tactic(auto, using(crate::proofs::Stocked::layout_holds))]
pub fn layout_holds() -> u8
    ensures law { LayoutHolds }
{
    0
}

// Orders ask nothing of a key: at public halves they are the image of the orders at secrets.
#[tactic(auto, using(crate::proofs::OrdersNatural::orders_naturality))]
pub fn orders_naturality_holds() -> u8
    ensures law { OrdersNaturality }
{
    0
}

// What a vault carries out at secrets, it carries out where keys are named by their public halves.
#[tactic(auto, using(crate::proofs::AtHalves::runs_at_halves))]
pub fn runs_at_halves_holds() -> u8
    ensures law { RunsAtHalves }
{
    0
}

// Who stays has four orders for each height of the tree at most, and eight more.
#[tactic(auto, using(crate::proofs::Few::few))]
pub fn few_holds() -> u8
    ensures law { Few }
{
    0
}

// Every order names the slots of the tree and the spare ones, and no others.
#[tactic(auto, using(crate::proofs::Spare::spare))]
pub fn spare_holds() -> u8
    ensures law { Spare }
{
    0
}

// The box that a member opens is one of the path.
#[tactic(auto, using(crate::proofs::Capped::boxes_there))]
pub fn boxes_there_holds() -> u8
    ensures law { BoxesThere }
{
    0
}

// A path has fewer boxes than there are members, and a level tree has no more members than leaves.
#[tactic(auto, using(crate::proofs::Capped::boxes_few))]
pub fn boxes_few_holds() -> u8
    ensures law { BoxesFew }
{
    0
}

// Capping the numbers of boxes at the largest number of eight bytes changes no order.
pub fn cap_keeps_holds() -> u8
    ensures law { CapKeeps }
{
    0
}

// One commit: whoever it concerns carries its orders out with no fault, and then holds exactly the next layout.
#[tactic(auto, using(crate::proofs::Kept::slots_kept))]
pub fn slots_kept_holds() -> u8
    ensures law { SlotsKept }
{
    0
}

// Every run from a founder: no order of any chip ever faults, and its slots hold what its member holds and nothing more.
pub fn chips_hold() -> u8
    ensures law { ChipsHold }
{
    0
}
