// What holds of the lines that are printed, and of plays: each contract is a theorem.
// A law answers 0, since there is no code in it: so the list of planted bugs knows it.
ghost use Rattle.playback.specs.Laws.{NodesDiffer, ReportsDiffer, PrintedOnce, StepIsRule, IsRun};

// No two lists of nodes are printed alike.
pub fn nodes_differ_holds() -> u8
    ensures { NodesDiffer }
{
    0
}

// A commit's line tells its numbers and the tree's nodes.
pub fn reports_differ_holds() -> u8
    ensures { ReportsDiffer }
{
    0
}

// An input has one output.
pub fn printed_once_holds() -> u8
    ensures { PrintedOnce }
{
    0
}

// One commit does at the station what it does by the rules.
pub fn step_is_rule_holds() -> u8
    ensures { StepIsRule }
{
    0
}

// A play is a run of the rules.
pub fn is_run_holds() -> u8
    ensures { IsRun }
{
    0
}
