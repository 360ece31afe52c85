// One line for a refusal, or for a text that cannot be read: what is wrong, in plain words.
// The contracts cite `specs/RefusalText.antt`.
#![tactic(auto)]

ghost use Rattle.std.specs.Prelude.{◌≡◌, ◌+◌, ◌≤◌, length};
ghost use Rattle.refusals.specs.Checks.{number_of};
ghost use Rattle.text_pieces.specs.Pieces.{Put};
ghost use Rattle.refusal_text.specs.RefusalText.{byte_width, place_width, words_width, line_width};
ghost use Rattle.refusal_text.specs.RefusalText.{cause_number, meaning, fault_number, trouble, end_number, byte_words, place_words};
ghost use Rattle.refusal_text.specs.RefusalText.{caused_line, refusal_line, refusal_line_in, fault_line, fault_line_of};

use refusals::{Refusal, Refused};
use scan::{FaultAt, TextFault};
use text_pieces::{NUMBER_WIDTH, put_bytes, put_named, put_refused};

// The most bytes of the words for a refusal or for what is wrong with a text.
const WORDS_WIDTH: usize = 80;

// The most bytes of ` byte ` with its number.
const BYTE_WIDTH: usize = 6 + NUMBER_WIDTH;

// The most bytes of `line ` and ` column ` with their numbers, and of the byte.
const PLACE_WIDTH: usize = 5 + NUMBER_WIDTH + (8 + NUMBER_WIDTH + BYTE_WIDTH);

// The most bytes of a line: that of a fault is the longest.
pub const LINE_WIDTH: usize = PLACE_WIDTH + WORDS_WIDTH;

// What a call is refused for, where it is known more closely than by the refusal.
#[derive(Clone, Copy, Debug, PartialEq, Eq)]
pub enum Cause {
    Of(Refusal),
    Period,
    Offset,
    Count,
    Timing,
}

impl Cause {
    #[tactic(auto, unfolding(crate::specs::RefusalText::cause_number))]
    pub fn number(self) -> u32
        ensures { result ≡ cause_number self }
    {
        match self {
            Cause::Of(refusal) => refusal.number(),
            Cause::Period => 31,
            Cause::Offset => 32,
            Cause::Count => 33,
            Cause::Timing => 34,
        }
    }
}

// What a refusal means; what the last two mean of two lists together, `pool_text` says.
#[tactic(auto, unfolding(crate::specs::RefusalText::words_for, crate::specs::RefusalText::call_meaning, crate::specs::RefusalText::pair_meaning, crate::specs::RefusalText::meaning, refusals::specs::Checks::number_of))]
pub fn refusal_words(refusal: Refusal) -> &'static [u8]
    ensures is { result.now ≡ meaning (number_of refusal) }
    ensures short { length result.now ≤ words_width }
{
    match refusal {
        Refusal::Call =>
            b" period, offset or timing out of range, or not one timing for each register\n",
        Refusal::Length => b" the count of words, of numbers or of needs is wrong\n",
        Refusal::Size => b" the count of registers or of pairs is out of range\n",
        Refusal::Word => b" a word of the wrong kind, or a need above 9999 picoseconds\n",
        Refusal::Register => b" a register is not below the count of registers\n",
        Refusal::Delay => b" a delay is above 1000000 picoseconds\n",
        Refusal::Crossed => b" a least delay is above its greatest\n",
        Refusal::Sum => b" the sum at the end is wrong: the list is damaged\n",
        Refusal::NoNeeds => b" all needs are zero: such a list has no words for them\n",
        Refusal::Hold => b" a least delay is below the hold of its capture register\n",
        Refusal::Order =>
            b" pairs have to rise by launch, then capture: convert_list orders them\n",
        Refusal::Scratch | Refusal::Room | Refusal::Unlike | Refusal::Pairs =>
            b" a buffer is too short\n",
    }
}

// What a refusal, or the cause of one, means.
#[tactic(auto, unfolding(crate::specs::RefusalText::words_for, crate::specs::RefusalText::call_meaning, crate::specs::RefusalText::pair_meaning, crate::specs::RefusalText::meaning, crate::specs::RefusalText::cause_number))]
fn cause_words(cause: Cause) -> &'static [u8]
    ensures is { result.now ≡ meaning (cause_number cause) }
    ensures short { length result.now ≤ words_width }
{
    match cause {
        Cause::Of(refusal) => refusal_words(refusal),
        Cause::Period => b" the period is not from 1 to 1009999\n",
        Cause::Offset => b" the offset is above 1009999\n",
        Cause::Count => b" not one timing for each register\n",
        Cause::Timing => b" a timing is above 516109489\n",
    }
}

// The refusal or the cause that means what the number means; a number that is of none means what a short buffer does.
#[tactic(auto, unfolding(crate::specs::RefusalText::cause_number, refusals::specs::Checks::number_of))]
fn cause_by(number: u32) -> Cause
    ensures { meaning (cause_number result) ≡ meaning number }
{
    match number {
        3 => Cause::Of(Refusal::Call),
        11 => Cause::Of(Refusal::Length),
        12 => Cause::Of(Refusal::Size),
        13 => Cause::Of(Refusal::Word),
        14 => Cause::Of(Refusal::Register),
        15 => Cause::Of(Refusal::Delay),
        16 => Cause::Of(Refusal::Crossed),
        17 => Cause::Of(Refusal::Sum),
        18 => Cause::Of(Refusal::NoNeeds),
        19 => Cause::Of(Refusal::Hold),
        20 => Cause::Of(Refusal::Order),
        31 => Cause::Period,
        32 => Cause::Offset,
        33 => Cause::Count,
        34 => Cause::Timing,
        _ => Cause::Of(Refusal::Room),
    }
}

// What a number means, of a refusal or of the cause of one.
pub fn number_words(number: u32) -> &'static [u8]
    ensures is { result.now ≡ meaning number }
    ensures short { length result.now ≤ words_width }
{
    cause_words(cause_by(number))
}

// The words for a refusal, or for the cause of one.
fn put_meaning(text: &mut [u8], at: usize, number: u32) -> usize
    requires { at + words_width ≤ length text.old }
    ensures { Put words_width (meaning number) text.old at text.new result }
{
    put_bytes(text, at, number_words(number))
}

// What is wrong with a text.
#[tactic(auto, unfolding(crate::specs::RefusalText::words_for, crate::specs::RefusalText::trouble, crate::specs::RefusalText::fault_number))]
fn fault_words(fault: TextFault) -> &'static [u8]
    ensures is { result.now ≡ trouble (fault_number fault) }
    ensures short { length result.now ≤ words_width }
{
    match fault {
        TextFault::BadByte => b" only digits, spaces, commas and comments may stand here\n",
        TextFault::LargeNumber => b" a number is above 4294967295\n",
        TextFault::BadFirstLine =>
            b" the first line holds the count of registers, or that and the count of pairs\n",
        TextFault::BadLine =>
            b" a line holds two needs, before all pairs, or the four numbers of a pair\n",
        TextFault::TooManyNumbers =>
            b" too many numbers: a text has at most 9217, for 512 registers and 2048 pairs\n",
        TextFault::NoNumber => b" the text holds no number\n",
        TextFault::TooLong => b" the text is longer than 131072 bytes\n",
        TextFault::OtherPairs => b" the first line says another number of pairs\n",
    }
}

// The fault that is told as the number is; a number that is of none is told as a long text is.
#[tactic(auto, unfolding(crate::specs::RefusalText::fault_number))]
fn fault_by(fault: u32) -> TextFault
    ensures { trouble (fault_number result) ≡ trouble fault }
{
    match fault {
        1 => TextFault::BadByte,
        2 => TextFault::LargeNumber,
        3 => TextFault::BadFirstLine,
        4 => TextFault::BadLine,
        5 => TextFault::TooManyNumbers,
        6 => TextFault::NoNumber,
        8 => TextFault::OtherPairs,
        _ => TextFault::TooLong,
    }
}

// The number of what is wrong with a text, as the reader of texts gives it.
#[tactic(auto, unfolding(crate::specs::RefusalText::fault_number))]
fn number_of_fault(fault: TextFault) -> u32
    ensures { result ≡ fault_number fault }
{
    match fault {
        TextFault::BadByte => 1,
        TextFault::LargeNumber => 2,
        TextFault::BadFirstLine => 3,
        TextFault::BadLine => 4,
        TextFault::TooManyNumbers => 5,
        TextFault::NoNumber => 6,
        TextFault::TooLong => 7,
        TextFault::OtherPairs => 8,
    }
}

// The words for what is wrong with a text.
fn put_trouble(text: &mut [u8], at: usize, fault: u32) -> usize
    requires { at + words_width ≤ length text.old }
    ensures { Put words_width (trouble fault) text.old at text.new result }
{
    put_bytes(text, at, fault_words(fault_by(fault)))
}

// The line of a refusal, with the words for its cause.
pub fn put_caused(text: &mut [u8], number: u32, place: usize, cause: u32) -> usize
    requires { line_width ≤ length text.old }
    ensures { Put line_width (caused_line number place cause) text.old 0 text.new result }
{
    let a = put_refused(text, number, place, b':');
    put_meaning(text, a, cause)
}

// The same, of a refusal and a cause as the jobs give them.
pub fn tell_caused(text: &mut [u8], refused: Refused, cause: Cause) -> usize
    requires { line_width ≤ length text.old }
    ensures { Put line_width (caused_line (number_of refused.refusal) refused.place (cause_number cause)) text.old 0 text.new result }
{
    put_caused(
        text,
        refused.refusal.number(),
        refused.place,
        cause.number(),
    )
}

// The line of a refusal that has one cause.
pub fn put_refusal(text: &mut [u8], number: u32, place: usize) -> usize
    requires { line_width ≤ length text.old }
    ensures { Put line_width (refusal_line number place) text.old 0 text.new result }
{
    put_caused(text, number, place, number)
}

// The same, of a refusal as the jobs give it.
pub fn tell_refusal(text: &mut [u8], refused: Refused) -> usize
    requires { line_width ≤ length text.old }
    ensures { Put line_width (refusal_line (number_of refused.refusal) refused.place) text.old 0 text.new result }
{
    put_refusal(text, refused.refusal.number(), refused.place)
}

// The line of a refusal of a list that was made from a text, with the line of the text.
pub fn put_refusal_in(text: &mut [u8], number: u32, place: usize, line: usize) -> usize
    requires { line_width ≤ length text.old }
    ensures { Put line_width (refusal_line_in number place line) text.old 0 text.new result }
{
    let a = put_refused(text, number, place, b' ');
    let b = put_named(text, a, b"(line ", line as u64, b')');
    let c = put_bytes(text, b, b":");
    put_meaning(text, c, number)
}

// The same, of a refusal as the jobs give it.
pub fn tell_refusal_in(text: &mut [u8], refused: Refused, line: usize) -> usize
    requires { line_width ≤ length text.old }
    ensures { Put line_width (refusal_line_in (number_of refused.refusal) refused.place line) text.old 0 text.new result }
{
    put_refusal_in(text, refused.refusal.number(), refused.place, line)
}

// The byte at fault; 256: the end of the text.
fn put_byte_name(text: &mut [u8], at: usize, byte: u32) -> usize
    requires { at + byte_width ≤ length text.old }
    ensures { Put byte_width (byte_words byte) text.old at text.new result }
{
    if byte < 256 {
        return put_named(text, at, b" byte ", byte as u64, b':');
    }
    put_bytes(text, at, b" end:")
}

// The byte at fault as the reader of texts gives it, or 256 for the end of the text.
#[tactic(auto, unfolding(crate::specs::RefusalText::end_number))]
fn byte_or_end(byte: Option<u8>) -> u32
    ensures { result ≡ end_number byte }
{
    match byte {
        Some(byte) => u32::from(byte),
        None => 256,
    }
}

// Where a text is at fault.
fn put_place(text: &mut [u8], line: usize, column: usize, byte: u32) -> usize
    requires { place_width ≤ length text.old }
    ensures { Put place_width (place_words line column byte) text.old 0 text.new result }
{
    let a = put_named(text, 0, b"line ", line as u64, b',');
    let b = put_named(text, a, b" column ", column as u64, b',');
    put_byte_name(text, b, byte)
}

// The line for a text that cannot be read.
pub fn put_fault(text: &mut [u8], fault: u32, line: usize, column: usize, byte: u32) -> usize
    requires { line_width ≤ length text.old }
    ensures { Put line_width (fault_line fault line column byte) text.old 0 text.new result }
{
    let a = put_place(text, line, column, byte);
    put_trouble(text, a, fault)
}

// The same, of a fault as the reader of texts gives it.
#[tactic(auto, unfolding(crate::specs::RefusalText::fault_line_of))]
pub fn tell_fault(text: &mut [u8], wrong: FaultAt) -> usize
    requires { line_width ≤ length text.old }
    ensures { Put line_width (fault_line_of wrong) text.old 0 text.new result }
{
    put_fault(
        text,
        number_of_fault(wrong.fault),
        wrong.place.line,
        wrong.place.column,
        byte_or_end(wrong.byte),
    )
}
