// An input line by line, without a copy.
ghost use Rattle.scripts.specs.Lines.{lines_of, max_lines};
ghost use Rattle.std.specs.Iterator.{YieldsFirstRef, item_count};
ghost use Rattle.std.specs.Prelude.{◌≡◌, ◌≤◌, ℕ, List, [], ◌∷◌, length, MatchOption, nat_lt};

use crate::split::split_once;
use std::marker::Model;

// A script of more lines is refused whole.
pub const MAX_LINES: usize = 4096;

// The first line of `input`, and what stands behind it; nothing at the end of the input.
pub fn next_line(input: &[u8]) -> Option<(&[u8], &[u8])>
    ensures { MatchOption result (lines_of input.now ≡ []) (λ p. lines_of input.now ≡ p.0.now ∷ lines_of p.1.now) }
{
    if input.is_empty() {
        return None;
    }
    Some(split_once(input, b'\n').unwrap_or((input, &[])))
}

// The lines of an input, one after another.
#[derive(Drop)]
pub struct Lines<'a> {
    rest: &'a [u8],
}

impl<'a> Model for Lines<'a> {
    ghost Value = { List (List ℕ) };

    ghost view = { λ lines. lines_of lines.rest.now };
}

impl<'a> Lines<'a> {
    pub fn new(input: &'a [u8]) -> Lines<'a>
        ensures value { result ≡ lines_of input.now }
        ensures len { length result ≤ length input.now }
    {
        Lines { rest: input }
    }
}

impl<'a> Iterator for Lines<'a> {
    type Item = &'a [u8];

    ghost next_gives = { YieldsFirstRef (λ lines. lines) };

    ghost remaining = { item_count (λ lines. lines) };

    fn next(&mut self) -> Option<&'a [u8]> {
        let (line, behind) = next_line(self.rest)?;
        self.rest = behind;
        Some(line)
    }
}

// How many lines `input` has.
pub fn line_count(input: &[u8]) -> usize
    ensures { result ≡ length (lines_of input.now) }
{
    Lines::new(input).count()
}

// Whether `input` has more lines than a script may have.
pub fn too_long(input: &[u8]) -> bool
    ensures { result ≡ nat_lt max_lines (length (lines_of input.now)) }
{
    line_count(input) > MAX_LINES
}
