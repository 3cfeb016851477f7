// Laws of tree files, each asked for by the function that names it.
// A law answers 0, since there is no code in it: so the list of planted bugs knows it.
ghost use Rattle.tree_files.specs.Laws.{FilePrecedence, FileRoundTrip, RunsFiled};

// Bytes of no tree are refused by 1, a tree that breaks a rule by 8, and no other.
pub fn file_precedence_holds() -> u8
    ensures law { FilePrecedence }
{
    0
}

pub fn file_round_trip_holds() -> u8
    ensures law { FileRoundTrip }
{
    0
}

// The tree of every run from a founder is written and read back.
pub fn runs_filed_holds() -> u8
    ensures law { RunsFiled }
{
    0
}
