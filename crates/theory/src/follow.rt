// Rules over any kind of key, well-formed trees, members that keep up, the price of a renewal, and what can be worked out. Each function here has a theorem as its contract.
// A law answers 0, since there is no code in it: so the list of planted bugs knows it.
ghost use Rattle.theory.specs.Follow.{Enters, Follows, Logarithmic, Makes, Small};
ghost use Rattle.theory.specs.Known.{KnownIs};
ghost use Rattle.theory.specs.Natural.{Naturality};
ghost use Rattle.theory.specs.Wellformed.{Distinct, WellFormedIs, WellFormedKept};

// The rules ask nothing of a key: at public halves they are the image of what they are at secrets.
#[tactic(auto, using(crate::proofs::Natural::naturality))]
pub fn naturality_holds() -> u8
    ensures { Naturality }
{
    0
}

// A tree passes the test exactly if everybody has a member's number, nobody sits twice, and unmerged ones are distinct, below, and not all.
#[tactic(auto, using(crate::proofs::Wellformed::well_formed_is))]
pub fn well_formed_is_holds() -> u8
    ensures { WellFormedIs }
{
    0
}

// Every tree of a run passes the test, if the founder has a member's number.
pub fn well_formed_kept_holds() -> u8
    ensures { WellFormedKept }
{
    0
}

// In every tree of a run every member sits at one place at most.
#[tactic(auto, using(crate::proofs::Wellformed::distinct_holds))]
pub fn distinct_holds() -> u8
    ensures { Distinct }
{
    0
}

// Who stays and is not the committer works out all that it then holds, from what it held and the message.
#[tactic(auto, using(crate::proofs::Follows::follows))]
pub fn follows_holds() -> u8
    ensures { Follows }
{
    0
}

// Who comes works out all that it then holds, from its two keys and the message.
#[tactic(auto, using(crate::proofs::Follows::enters))]
pub fn enters_holds() -> u8
    ensures { Enters }
{
    0
}

// Who commits works out all that it then holds and all that it seals, with no box.
#[tactic(auto, using(crate::proofs::Follows::makes))]
pub fn makes_holds() -> u8
    ensures { Makes }
{
    0
}

// A renewal is sealed to fewer keys than there are members.
#[tactic(auto, using(crate::proofs::Counting::small))]
pub fn small_holds() -> u8
    ensures { Small }
{
    0
}

// Where the tree is whole with d levels a renewal is sealed to d keys, and it stays whole.
#[tactic(auto, using(crate::proofs::Counting::logarithmic))]
pub fn logarithmic_holds() -> u8
    ensures { Logarithmic }
{
    0
}

// What is computed by rounds is what can be worked out.
#[tactic(auto, using(crate::proofs::Known::known_is))]
pub fn known_is_holds() -> u8
    ensures { KnownIs }
{
    0
}
