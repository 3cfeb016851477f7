// The rules of a group as definitions, and what is shown of them. Each function here has a theorem as its contract.
// A law answers 0, since there is no code in it: so the list of planted bugs knows it.
#![tactic(auto)]

mod follow;
mod laws;
mod promise;

ghost use Rattle.theory.specs.Worked.{WorkedCases};

pub use follow::{
    distinct_holds, enters_holds, follows_holds, known_is_holds, logarithmic_holds, makes_holds,
    naturality_holds, small_holds, well_formed_is_holds, well_formed_kept_holds,
};
pub use laws::{
    addition_holds, growth_holds, held_by_height_holds, level_kept_holds, path_laid_holds,
    position_is_holds, removal_holds, resolution_empty_holds, unmerged_since_holds,
};
pub use promise::{
    heals_holds, main_holds, open_is_holds, own_fresh_holds, past_holds, reaches_holds, sole_holds,
};

// The cases that were worked out by hand are what the definitions give.
#[tactic(auto, using(crate::proofs::Worked::worked_cases))]
pub fn worked_cases() -> u8
    ensures { WorkedCases }
{
    0
}
