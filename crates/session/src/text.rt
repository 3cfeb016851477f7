// An order as a line of text, without its newline.
ghost use Rattle.std.specs.Prelude.{◌≡◌, ◌<◌, Some};
ghost use Rattle.ratchet_tree.specs.Keys.{Appends};
ghost use Rattle.orders.specs.Order.{order_of, way_of};
ghost use Rattle.session.specs.Text.{digit_of_hex, hex_text, order_text, word_of_way};

use orders::{Order, Way};
use std::alloc::AllocError;
use std::fmt;
use std::io::Write;

// A function and no Display, since the type is of `orders`.
fn way_word(way: Way) -> &'static str
    ensures { result.now ≡ word_of_way (way_of way) }
{
    match way {
        Way::Up => "up",
        Way::Lock => "lock",
        Way::Seed => "seed",
        Way::Talk => "talk",
    }
}

fn hex_digit(value: u8) -> u8
    requires { value < 16 }
    ensures { result ≡ digit_of_hex value }
{
    if value < 10 {
        b'0' + value
    } else {
        b'a' + (value - 10)
    }
}

// Each byte as two hex digits, its high half first. Put together here: with a `{:02x}` for each byte a committer's orders
// took three times as long to print.
fn hex_digits(bytes: &[u8; 32]) -> [u8; 64]
    ensures { result ≡ hex_text bytes.now }
{
    let mut digits = [0; 64];
    for (i, &byte) in bytes.iter().enumerate() {
        digits[2 * i] = hex_digit(byte / 16);
        digits[2 * i + 1] = hex_digit(byte % 16);
    }
    digits
}

// A key's bytes in hex digits.
#[derive(Clone, Copy)]
struct Hex<'a>(&'a [u8; 32]);

impl fmt::Display for Hex<'_> {
    ghost output = { λ hex. Some (hex_text hex.0.now) };

    fn fmt<W: fmt::Write>(&self, f: &mut fmt::Formatter<W>) -> fmt::Result {
        let digits = hex_digits(self.0);
        f.write_str(str::from_utf8(&digits).map_err(|_| fmt::Error)?)
    }
}

// An order as the program prints it: its word, then its numbers; the slot that is written stands last.
#[derive(Clone, Copy)]
struct Line(Order);

impl fmt::Display for Line {
    ghost output = { λ line. Some (order_text (order_of line.0)) };

    fn fmt<W: fmt::Write>(&self, f: &mut fmt::Formatter<W>) -> fmt::Result {
        match self.0 {
            Order::Draw(into) => write!(f, "draw {}", into.0),
            Order::Derive { way, from, into } => {
                write!(f, "{} {} {}", way_word(way), from.0, into.0)
            }
            Order::Mix { seed, path, into } => write!(f, "mix {} {} {}", seed.0, path.0, into.0),
            Order::Seal { from, key } => write!(f, "seal {} {}", from.0, Hex(&key.0)),
            Order::Open { number, key, into } => write!(f, "open {number} {} {}", key.0, into.0),
            Order::Forget(slot) => write!(f, "forget {}", slot.0),
            Order::Public(slot) => write!(f, "public {}", slot.0),
        }
    }
}

// Appends the order's line piece by piece: a String of its own would ask for memory once more.
pub fn write_order(out: &mut Vec<u8>, order: Order) -> Result<(), AllocError>
    ensures bytes { Appends out.old.items (order_text (order_of order)) out.new.items result }
{
    write!(out, "{}", Line(order)).map_err(|_| AllocError)
}
