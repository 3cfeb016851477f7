// Numbers as decimal text, written one way only: no sign, no leading zero.
ghost use Rattle.std.specs.Prelude.{◌≡◌, ◌+◌, ◌-◌, ◌*◌, ◌<◌, ◌++◌, is_ok, if◌then◌else◌, MatchOption};
ghost use Rattle.scripts.specs.Decimal.{Digit, ReadsNumber, decimal};

use itoa::Buffer;
use std::alloc::AllocError;

// The number with one more digit behind it, where `byte` is a digit and the number fits.
fn with_digit(number: u16, byte: u8) -> Option<u16>
    ensures { MatchOption result (Digit byte → number * 10 + (byte - 48) < 65536 → ⊥) (λ n. Digit byte × (n ≡ number * 10 + (byte - 48)) × (n < 65536)) }
{
    if byte < b'0' || byte > b'9' {
        return None;
    }
    number.checked_mul(10)?.checked_add(u16::from(byte - b'0'))
}

// The number that `text` is the decimal text of. Digit by digit, up to the first that has no place: std's `parse` takes a
// sign and leading zeros too, which would have to be looked for, and takes twice to five times as long.
pub fn read_number(text: &[u8]) -> Option<u16>
    ensures { ReadsNumber text.now result }
{
    if text.is_empty() {
        return None;
    }
    if text.len() > 1 && text[0] == b'0' {
        return None;
    }
    let mut number = 0;
    for byte in text {
        number = with_digit(number, *byte)?;
    }
    Some(number)
}

// Appends the decimal text of `number`, or leaves `out` as it was where there is no memory. A single digit, as most counts
// are, is appended at once: by way of a buffer it takes twice as long.
pub fn write_number(out: &mut Vec<u8>, number: u64) -> Result<(), AllocError>
    ensures items { out.new.items ≡ (if is_ok result then out.old.items ++ decimal number else out.old.items) }
{
    if number < 10 {
        return out.extend_from_slice(&[b'0' + number as u8]);
    }
    out.extend_from_slice(Buffer::new().format(number).as_bytes())
}
