// What holds of the format: each contract is a theorem.
// A law answers 0, since there is no code in it: so the list of planted bugs knows it.
ghost use Rattle.scripts.specs.Laws.{LinesDiffer, FoundersDiffer, NoLineIsAFounder, RoundTrip, NoNewline, CutsJoin, LastNewlineOptional};

// No two commits have one line.
pub fn lines_differ_holds() -> u8
    ensures { LinesDiffer }
{
    0
}

// No two founders have one line.
pub fn founders_differ_holds() -> u8
    ensures { FoundersDiffer }
{
    0
}

// No commit's line is a founder's.
pub fn no_line_is_a_founder_holds() -> u8
    ensures { NoLineIsAFounder }
{
    0
}

// A line is read as what it was written of.
pub fn round_trip_holds() -> u8
    ensures { RoundTrip }
{
    0
}

// No line that is written holds a newline.
pub fn no_newline_holds() -> u8
    ensures { NoNewline }
{
    0
}

// Lines put together are cut apart again.
pub fn cuts_join_holds() -> u8
    ensures { CutsJoin }
{
    0
}

// The last line may lack its newline.
pub fn last_newline_optional_holds() -> u8
    ensures { LastNewlineOptional }
{
    0
}
