// The 32-bit words of a delay list: their fields, how they are made, their sum, and their bytes in a file.
// And a number with sign as a word of 64 bits. The contracts cite `specs/Word.antt`, `specs/Bytes.antt` and `specs/Signed.antt`.
#![tactic(auto)]

mod bytes;
mod signed;

ghost use Rattle.std.specs.Prelude.{◌≡◌, ◌-◌, ◌^◌, ◌<◌, ◌≤◌, eqb, length, take};
ghost use Rattle.words.specs.Word.{word_bits, payload_bits, count_bits, register_bits, kind_number, kind_of, payload_of, head_pairs};
ghost use Rattle.words.specs.Word.{head_registers, head_spare};
ghost use Rattle.words.specs.Word.{capture_of, launch_of, pair_spare, word_of, head_word, pair_word, wrapped_sum, checksum};
ghost use Rattle.words.specs.Word.{need_bits, hold_of, setup_of, needs_spare, needs_word};

pub use bytes::{to_bytes, to_words};
pub use signed::{magnitude, signed_word};

// The kinds of words.
#[derive(Clone, Copy, Debug, PartialEq, Eq)]
pub enum WordKind {
    Head,
    Pair,
    Least,
    Greatest,
    Needs,
    End,
}

impl WordKind {
    pub fn number(self) -> u32
        ensures { result ≡ kind_number self }
    {
        match self {
            WordKind::Head => 1,
            WordKind::Pair => 2,
            WordKind::Least => 3,
            WordKind::Greatest => 4,
            WordKind::Needs => 5,
            WordKind::End => 7,
        }
    }

    // Whether a word is of this kind.
    pub fn is_of(self, w: u32) -> bool
        ensures { result ≡ eqb (kind_of w) (kind_number self) }
    {
        kind(w) == self.number()
    }

    // The word of this kind with a payload.
    pub fn word(self, payload: u32) -> u32
        requires { payload < 2 ^ payload_bits }
        ensures { result ≡ word_of (kind_number self) payload }
    {
        word_of(self.number(), payload)
    }
}

// The kind counts in these: the payload below it has 29 bits.
const KIND: u32 = 0x2000_0000;

// A head word has the count of pairs in its low 12 bits, and above it the count of registers, which counts in these.
const COUNT: u32 = 0x1000;

// A register, and the count of registers, has 10 bits: in a pair word the launch register counts in these.
const REGISTER: u32 = 0x400;

// A need has 14 bits: in a word of needs the setup counts in these.
const NEED: u32 = 0x4000;

// The spare bits of a head word, of a pair word and of a word of needs count in these: they stand between what the word holds and its kind.
const HEAD_USED: u32 = COUNT * REGISTER;

const PAIR_USED: u32 = REGISTER * REGISTER;

const NEEDS_USED: u32 = NEED * NEED;

pub fn kind(w: u32) -> u32
    ensures { result ≡ kind_of w }
{
    w / KIND
}

pub fn payload(w: u32) -> u32
    ensures { result ≡ payload_of w }
{
    w % KIND
}

// The head's count of pairs.
pub fn head_pairs(w: u32) -> u32
    ensures { result ≡ head_pairs w }
{
    w % COUNT
}

// The head's count of registers.
pub fn head_registers(w: u32) -> u32
    ensures { result ≡ head_registers w }
{
    w / COUNT % REGISTER
}

// The head's bits that must be zero.
pub fn head_spare(w: u32) -> u32
    ensures { result ≡ head_spare w }
{
    w / HEAD_USED % (KIND / HEAD_USED)
}

pub fn capture(w: u32) -> u32
    ensures { result ≡ capture_of w }
{
    w % REGISTER
}

pub fn launch(w: u32) -> u32
    ensures { result ≡ launch_of w }
{
    w / REGISTER % REGISTER
}

// The bits of a pair word that must be zero.
pub fn pair_spare(w: u32) -> u32
    ensures { result ≡ pair_spare w }
{
    w / PAIR_USED % (KIND / PAIR_USED)
}

// The hold need in a word of needs.
pub fn hold(w: u32) -> u32
    ensures { result ≡ hold_of w }
{
    w % NEED
}

// The setup need.
pub fn setup(w: u32) -> u32
    ensures { result ≡ setup_of w }
{
    w / NEED % NEED
}

// The bit of a word of needs that must be zero.
pub fn needs_spare(w: u32) -> u32
    ensures { result ≡ needs_spare w }
{
    w / NEEDS_USED % (KIND / NEEDS_USED)
}

// The word of a kind with a payload.
pub fn word_of(kind: u32, payload: u32) -> u32
    requires { (kind < 2 ^ (word_bits - payload_bits)) × (payload < 2 ^ payload_bits) }
    ensures { result ≡ word_of kind payload }
{
    kind * KIND + payload
}

pub fn head_word(registers: u32, pairs: u32) -> u32
    requires { (registers < 2 ^ register_bits) × (pairs < 2 ^ count_bits) }
    ensures { result ≡ head_word registers pairs }
{
    WordKind::Head.word(registers * COUNT + pairs)
}

pub fn pair_word(launch: u32, capture: u32) -> u32
    requires { (launch < 2 ^ register_bits) × (capture < 2 ^ register_bits) }
    ensures { result ≡ pair_word launch capture }
{
    WordKind::Pair.word(launch * REGISTER + capture)
}

pub fn needs_word(hold: u32, setup: u32) -> u32
    requires { (hold < 2 ^ need_bits) × (setup < 2 ^ need_bits) }
    ensures { result ≡ needs_word hold setup }
{
    WordKind::Needs.word(setup * NEED + hold)
}

// The sum of words, carries out of the word dropped.
fn sum(words: &[u32]) -> u32
    ensures { result ≡ wrapped_sum words.now }
{
    let mut sum: u32 = 0;
    for w in words {
        sum = sum.wrapping_add(*w);
    }
    sum
}

// The payload of an end word that stands after the first `count` words.
pub fn end_payload(words: &[u32], count: usize) -> u32
    requires { count ≤ length words.now }
    ensures { result ≡ checksum (take count words.now) }
{
    payload(sum(&words[..count]))
}
