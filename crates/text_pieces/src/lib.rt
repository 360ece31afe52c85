// Pieces of text stored in a buffer one after the other: bytes, decimal numbers, names with their numbers.
// Each function stores a piece from `at` on, keeps all other places, and returns the place after the piece.
// The contracts cite `specs/Pieces.antt`.
#![tactic(auto)]

ghost use Rattle.std.specs.Prelude.{[], ◌∷◌, ◌+◌, ◌≤◌, ◌<◌, length};
ghost use Rattle.text_pieces.specs.Pieces.{digit, decimal, number, signed, named, refused_at};
ghost use Rattle.text_pieces.specs.Pieces.{max_digits, number_width, signed_width, refused_width, Put};

// The most digits of a number of 64 bits.
const MAX_DIGITS: usize = 20;

// The most bytes of a number and the byte that ends it.
pub const NUMBER_WIDTH: usize = MAX_DIGITS + 1;

// With a sign.
pub const SIGNED_WIDTH: usize = 1 + NUMBER_WIDTH;

// The most bytes of `refused ` and `at ` with their numbers.
pub const REFUSED_WIDTH: usize = 8 + NUMBER_WIDTH + (3 + NUMBER_WIDTH);

// A line that tells what is wrong stands in the first `size` bytes of the buffer. `specs/Saying.antt`.
#[derive(Clone, Copy, Debug, PartialEq, Eq)]
pub struct Trouble {
    pub size: usize,
}

fn put_byte(text: &mut [u8], at: usize, byte: u8) -> usize
    requires { at < length text.old }
    ensures { Put 1 (byte ∷ []) text.old at text.new result }
{
    text[at] = byte;
    at + 1
}

fn put_digit(text: &mut [u8], at: usize, d: u64) -> usize
    requires { (d < 10) × (at < length text.old) }
    ensures { Put 1 (digit d ∷ []) text.old at text.new result }
{
    put_byte(text, at, b'0' + d as u8)
}

// A number in decimal.
fn put_decimal(text: &mut [u8], at: usize, n: u64) -> usize
    requires { at + max_digits ≤ length text.old }
    ensures { Put max_digits (decimal n) text.old at text.new result }
{
    if n < 10 {
        return put_digit(text, at, n);
    }
    let last = put_decimal(text, at, n / 10);
    put_digit(text, last, n % 10)
}

// A number, and the byte that ends it.
pub fn put_number(text: &mut [u8], at: usize, n: u64, end: u8) -> usize
    requires { at + number_width ≤ length text.old }
    ensures { Put number_width (number n end) text.old at text.new result }
{
    let last = put_decimal(text, at, n);
    put_byte(text, last, end)
}

// A number with sign, and the byte that ends it.
pub fn put_signed(text: &mut [u8], at: usize, z: i64, end: u8) -> usize
    requires { at + signed_width ≤ length text.old }
    ensures { Put signed_width (signed z end) text.old at text.new result }
{
    if z >= 0 {
        return put_number(text, at, words::magnitude(z), end);
    }
    let last = put_byte(text, at, b'-');
    put_number(text, last, words::magnitude(z), end)
}

pub fn put_bytes(text: &mut [u8], at: usize, bytes: &[u8]) -> usize
    requires { at + length bytes.now ≤ length text.old }
    ensures { Put (length bytes.now) bytes.now text.old at text.new result }
{
    let end = at + bytes.len();
    text[at..end].copy_from_slice(bytes);
    end
}

// A name, its number, and the byte that ends it.
pub fn put_named(text: &mut [u8], at: usize, name: &[u8], n: u64, end: u8) -> usize
    requires { at + length name.now + number_width ≤ length text.old }
    ensures { Put (length name.now + number_width) (named name.now n end) text.old at text.new result }
{
    let last = put_bytes(text, at, name);
    put_number(text, last, n, end)
}

// The number and the place of a refusal, and the byte that ends them, from the first place on.
pub fn put_refused(text: &mut [u8], number: u32, place: usize, end: u8) -> usize
    requires { refused_width ≤ length text.old }
    ensures { Put refused_width (refused_at number place end) text.old 0 text.new result }
{
    let at = put_named(text, 0, b"refused ", number as u64, b' ');
    put_named(text, at, b"at ", place as u64, end)
}
