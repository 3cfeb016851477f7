// Why something is refused, by its number. Nothing changes then, and the answer has the number only.
ghost use Rattle.std.specs.Prelude.{◌≡◌};
ghost use Rattle.commits.specs.Refusals.{number_of};

#[derive(Clone, Copy, PartialEq, Eq, Debug)]
pub enum Refusal {
    // Bytes or a line that is nothing of ours, or a script that is too long.
    Malformed = 1,
    // A message whose epoch isn't the next.
    WrongEpoch = 2,
    // The committer isn't seated, or this handset isn't and isn't the newcomer.
    NotSeated = 3,
    // The member to remove isn't seated, or is the committer.
    CannotRemove = 4,
    // The newcomer is seated, or has nobody's number.
    CannotAdd = 5,
    // Every leaf of the largest tree is occupied.
    GroupFull = 6,
    // A message with another number of node keys or boxes than the rules give.
    WrongCounts = 7,
    // A tree file, or a founder, that breaks a rule.
    BadTree = 8,
    // There is no epoch after the last one.
    LastEpoch = 9,
}

impl Refusal {
    // The number that is answered.
    pub fn number(self) -> u8
        ensures value { result ≡ number_of self }
    {
        self as u8
    }
}
