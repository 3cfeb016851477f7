// What is promised of whole runs. Each function here has one promise as its contract.
// A law answers 0, since there is no code in it: so the list of planted bugs knows it.
ghost use Rattle.theory.specs.Opened.{OpenIs};
ghost use Rattle.theory.specs.Promise.{Sole, OwnFresh, Main, Past, Heals, Reaches};

// Nobody sits twice in a tree of a run.
#[tactic(auto, using(crate::proofs::Sole::sole))]
pub fn sole_holds() -> u8
    ensures { Sole }
{
    0
}

// No leaf key is ever another's.
#[tactic(auto, using(crate::proofs::Sole::own_fresh))]
pub fn own_fresh_holds() -> u8
    ensures { OwnFresh }
{
    0
}

// Whoever has every box sent and all that was in the handsets read out works out a talk secret only where it lies open.
#[tactic(auto, using(crate::proofs::Secrecy::main))]
pub fn main_holds() -> u8
    ensures { Main }
{
    0
}

// If every handset was read out in a later epoch, the talk secret of this one is not worked out.
#[tactic(auto, using(crate::proofs::Healing::past))]
pub fn past_holds() -> u8
    ensures { Past }
{
    0
}

// If every handset read out has renewed its keys since or has left, the talk secret is not worked out.
#[tactic(auto, using(crate::proofs::Healing::heals))]
pub fn heals_holds() -> u8
    ensures { Heals }
{
    0
}

// In every part of every tree of a run, those seated hold one of the keys of the resolution, and nobody else holds any.
#[tactic(auto, using(crate::proofs::Reaching::reaches))]
pub fn reaches_holds() -> u8
    ensures { Reaches }
{
    0
}

// What is computed by recursion on the commits is where a talk secret lies open.
#[tactic(auto, using(crate::proofs::Opened::opened_is))]
pub fn open_is_holds() -> u8
    ensures { OpenIs }
{
    0
}
