// The laws of trees and of runs. Each function here has one as its contract.
// A law answers 0, since there is no code in it: so the list of planted bugs knows it.
ghost use Rattle.theory.specs.Laws.{Removal, Addition, UnmergedSince, Growth, PathLaid, ResolutionEmpty, LevelKept, PositionIs, HeldByHeight};

// A removal empties the member's leaf and every parent above it, and touches nothing else.
pub fn removal_holds() -> u8
    ensures { Removal }
{
    0
}

// A newcomer takes the leftmost blank leaf and is unmerged above it; a full tree takes nobody.
pub fn addition_holds() -> u8
    ensures { Addition }
{
    0
}

// A newcomer is unmerged above its leaf exactly where there was a key before it came.
#[tactic(auto, using(crate::proofs::Addition::unmerged_since))]
pub fn unmerged_since_holds() -> u8
    ensures { UnmergedSince }
{
    0
}

// Growing keeps everybody's place.
#[tactic(auto, using(crate::proofs::Growth::growth))]
pub fn growth_holds() -> u8
    ensures { Growth }
{
    0
}

// A path renews its maker's leaf and the parents above it, and touches nothing else.
pub fn path_laid_holds() -> u8
    ensures { PathLaid }
{
    0
}

// In every part of every tree of a run, the resolution is empty exactly if nobody is seated there.
#[tactic(auto, using(crate::proofs::Resolution::resolution_empty))]
pub fn resolution_empty_holds() -> u8
    ensures { ResolutionEmpty }
{
    0
}

// Every tree of a run has all leaves at one depth, and is no deeper than the limit.
pub fn level_kept_holds() -> u8
    ensures { LevelKept }
{
    0
}

// A member sits at the leaf that its position says, and has none exactly if it is not seated.
#[tactic(auto, using(crate::proofs::Position::position_is))]
pub fn position_is_holds() -> u8
    ensures { PositionIs }
{
    0
}

// In a level tree, all that a member holds is what it holds at each height.
#[tactic(auto, using(crate::proofs::Heights::held_by_height_holds))]
pub fn held_by_height_holds() -> u8
    ensures { HeldByHeight }
{
    0
}
