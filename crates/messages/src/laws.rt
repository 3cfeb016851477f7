// Laws of the formats, each asked for by the function that names it.
// A law answers 0, since there is no code in it: so the list of planted bugs knows it.
ghost use Rattle.messages.specs.Letters.{LetterRuns, LettersArrive, LettersDeliver};
ghost use Rattle.messages.specs.Laws.{NoMessageIsATree, OneReading, OneTree, RoundTrip};

pub fn round_trip_holds() -> u8
    ensures law { RoundTrip }
{
    0
}

pub fn one_reading_holds() -> u8
    ensures law { OneReading }
{
    0
}

pub fn one_tree_holds() -> u8
    ensures law { OneTree }
{
    0
}

pub fn no_message_is_a_tree_holds() -> u8
    ensures law { NoMessageIsATree }
{
    0
}

// The letter of every commit that is allowed is taken by every handset that it concerns, and brings it to the group's next tree and epoch.
pub fn letters_deliver_holds() -> u8
    ensures law { LettersDeliver }
{
    0
}

// The same, and the secrecy of what the letters carry.
pub fn letter_runs_hold() -> u8
    ensures law { LetterRuns }
{
    0
}

// Letters arrive as bytes too, where the founder has a member's number.
pub fn letters_arrive_holds() -> u8
    ensures law { LettersArrive }
{
    0
}
