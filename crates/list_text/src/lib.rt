// A delay list as plain text, and back. What `show` writes, `make` reads back to the same bytes: `proofs/RoundTrip.antt`.
// The contracts cite `specs/ListText.antt`.
#![tactic(auto)]

ghost use Rattle.std.specs.Prelude.{◌+◌, ◌*◌, ◌≤◌, ◌<◌, length, get_or, take, drop, ◌≡◌};
ghost use Rattle.text_pieces.specs.Pieces.{Put};
ghost use Rattle.refusals.specs.Checks.{number_of};
ghost use Rattle.refusals.specs.Reply.{told};
ghost use Rattle.text_pieces.specs.Saying.{SaidAs};
ghost use Rattle.refusal_text.specs.RefusalText.{line_width, refused_saying};
ghost use Rattle.list_format.specs.Read.{read_places, reading};
ghost use Rattle.list_bytes.specs.ListBytes.{max_bytes};
ghost use Rattle.timing.specs.Limits.{max_registers, max_pairs};
ghost use Rattle.scan.specs.Scan.{max_numbers, text_bytes};
ghost use Rattle.list_format.specs.Write.{given_needs};
ghost use Rattle.list_text.specs.ListText.{two_width, pair_width, list_width, shown_places, two_line, four_line, needs_line, pair_line, text_of};
ghost use Rattle.list_text.specs.ListText.{list_numbers, shown_said, shown_text, last_of, refused_line, made_from, made_with, made};
ghost use Rattle.convert_text.specs.ConvertText.{MadeAs};
ghost use Rattle.buffers.specs.Run.{run};
ghost use Rattle.buffers.specs.Over.{zeros};

use list_bytes::{MAX_BYTES, MAX_WORDS};
use list_format::Counts;
use refusal_text::LINE_WIDTH;
use refusals::{Refusal, Refused};
use scan::MAX_NUMBERS;
use text_pieces::{NUMBER_WIDTH, Trouble, put_number};
use timing::{MAX_PAIRS, MAX_REGISTERS};

// The needs of all registers.
const NEEDS: usize = 2 * (MAX_REGISTERS as usize);

// The numbers of the longest list.
const LIST_NUMBERS: usize = 4 * MAX_PAIRS + NEEDS;

// The most bytes of the line of a pair.
const PAIR_WIDTH: usize = 4 * NUMBER_WIDTH;

// Places enough for any text, be it of a list or of a refusal.
pub const TEXT_PLACES: usize = NUMBER_WIDTH * NEEDS + PAIR_WIDTH * MAX_PAIRS + LINE_WIDTH;

// The line of two numbers: the counts, or the needs of a register.
fn put_two(text: &mut [u8], at: usize, a: u32, b: u32) -> usize
    requires { at + two_width ≤ length text.old }
    ensures { Put two_width (two_line a b) text.old at text.new result }
{
    let first = put_number(text, at, a as u64, b' ');
    put_number(text, first, b as u64, b'\n')
}

// The lines of the needs of n registers.
fn put_needs(text: &mut [u8], at: usize, needs: &[u32], n: usize) -> usize
    requires { (2 * n ≤ length needs.now) × (at + two_width * n ≤ length text.old) }
    ensures { Put (two_width * n) (run (needs_line needs.now) n) text.old at text.new result }
{
    let mut last = at;
    for r in 0..n {
        let i = 2 * r;
        last = put_two(text, last, needs[i], needs[i + 1]);
    }
    last
}

// The line of a pair.
fn put_pair(text: &mut [u8], at: usize, a: u32, b: u32, c: u32, d: u32) -> usize
    requires { at + pair_width ≤ length text.old }
    ensures { Put pair_width (four_line a b c d) text.old at text.new result }
{
    let first = put_number(text, at, a as u64, b' ');
    let second = put_number(text, first, b as u64, b' ');
    let third = put_number(text, second, c as u64, b' ');
    put_number(text, third, d as u64, b'\n')
}

// The lines of m pairs.
fn put_pairs(text: &mut [u8], at: usize, numbers: &[u32], m: usize) -> usize
    requires { (4 * m ≤ length numbers.now) × (at + pair_width * m ≤ length text.old) }
    ensures { Put (pair_width * m) (run (pair_line numbers.now) m) text.old at text.new result }
{
    let mut last = at;
    for k in 0..m {
        let i = 4 * k;
        last = put_pair(
            text,
            last,
            numbers[i],
            numbers[i + 1],
            numbers[i + 2],
            numbers[i + 3],
        );
    }
    last
}

// The lines of the needs of n registers; none if all needs are 0.
fn put_block(text: &mut [u8], at: usize, n: u32, needs: &[u32]) -> usize
    requires { (2 * n ≤ length needs.now) × (at + two_width * n ≤ length text.old) }
    ensures { Put (two_width * n) (run (needs_line needs.now) (given_needs n needs.now)) text.old at text.new result }
{
    if write_list::none_needed(needs) {
        return at;
    }
    put_needs(text, at, needs, n as usize)
}

// The text of n registers with their needs, and of the pairs that the numbers make.
fn put_list(text: &mut [u8], n: u32, numbers: &[u32], needs: &[u32]) -> usize
    requires { ((n ≤ max_registers) × (2 * n ≤ length needs.now)) × ((length numbers.now ≤ 4 * max_pairs) × (list_width ≤ length text.old)) }
    ensures { Put list_width (text_of n numbers.now needs.now) text.old 0 text.new result }
{
    let m = numbers.len() / 4;
    let first = put_two(text, 0, n, m as u32);
    let second = put_block(text, first, n, needs);
    put_pairs(text, second, numbers, m)
}

// The text of so many registers and pairs, from what reading stores: four numbers for each pair, then the needs.
fn put_read(text: &mut [u8], counts: Counts, stored: &[u32]) -> usize
    requires { ((counts.registers ≤ max_registers) × (counts.pairs ≤ max_pairs))
        × ((read_places counts.registers counts.pairs ≤ length stored.now) × (list_width ≤ length text.old)) }
    ensures { Put list_width (text_of counts.registers (take (4 * counts.pairs) stored.now)
        (take (2 * counts.registers) (drop (4 * counts.pairs) stored.now)))
        text.old 0 text.new result }
{
    let from = 4 * counts.pairs as usize;
    let end = from + 2 * counts.registers as usize;
    put_list(text, counts.registers, &stored[..from], &stored[from..end])
}

// The text for a run of words.
fn put_words(text: &mut [u8], words: &[u32]) -> Result<usize, Trouble>
    requires { shown_places ≤ length text.old }
    ensures { SaidAs shown_places (told refused_saying shown_said (reading words.now list_numbers)) text.old text.new result }
{
    let mut numbers = [0u32; LIST_NUMBERS];
    match read_list::read(words, &mut numbers) {
        Err(refused) => {
            let size = refusal_text::tell_refusal(text, refused);
            Err(Trouble { size })
        }
        Ok(counts) => Ok(put_read(text, counts, &numbers)),
    }
}

// The text for the bytes of a list, or what is wrong, in the first places of `text`; later places keep their contents.
pub fn show(bytes: &[u8], text: &mut [u8; TEXT_PLACES]) -> Result<usize, Trouble>
    ensures { SaidAs shown_places (shown_text bytes.now) text.old text.new result }
{
    let mut words = [0u32; MAX_WORDS];
    let count = list_bytes::load(bytes, &mut words);
    put_words(text, &words[..count])
}

// The number of the text that ends what a refusal is of: the needs of a register, or a pair; none if it is of the whole.
#[tactic(auto, unfolding(crate::specs::ListText::last_of, refusals::specs::Checks::number_of))]
fn last_of(needs: usize, refused: Refused) -> Option<usize>
    requires { needs ≤ max_numbers }
    ensures { result ≡ last_of needs (number_of refused.refusal) refused.place }
{
    let place = refused.place;
    if place >= MAX_PAIRS {
        return None;
    }
    match refused.refusal {
        Refusal::Scratch | Refusal::Room | Refusal::Call | Refusal::Length | Refusal::Size => None,
        Refusal::Word => Some(2 * place + 3),
        Refusal::Register
        | Refusal::Delay
        | Refusal::Crossed
        | Refusal::Sum
        | Refusal::NoNeeds
        | Refusal::Hold
        | Refusal::Order
        | Refusal::Unlike
        | Refusal::Pairs => Some(needs + 4 * place + 5),
    }
}

// The line of a refusal, with the line of the text if it is not of the whole.
fn put_refused(out: &mut [u8], text: &[u8], needs: usize, refused: Refused) -> usize
    requires { (line_width ≤ length out.old) × ((length text.now ≤ text_bytes) × (needs ≤ max_numbers)) }
    ensures { Put line_width (refused_line text.now needs (number_of refused.refusal) refused.place) out.old 0 out.new result }
{
    match last_of(needs, refused) {
        None => refusal_text::tell_refusal(out, refused),
        Some(last) => refusal_text::tell_refusal_in(out, refused, scan::line_of(text, last)),
    }
}

// The bytes of the list that the numbers and the needs make, which stand in the text; so many of its numbers are needs. The pairs come in any
// order and may repeat: they are converted.
fn put_made(
    out: &mut [u8],
    text: &[u8],
    needs: usize,
    n: u32,
    numbers: &[u32],
    given: &[u32],
) -> Result<usize, Trouble>
    requires { (max_bytes ≤ length out.old) × ((length text.now ≤ text_bytes) × (needs ≤ max_numbers)) }
    ensures { MadeAs (made_from text.now needs n numbers.now given.now) out.old out.new result }
{
    let mut words = [0u32; MAX_WORDS];
    match write_list::write_stored(n, numbers, given, &mut words) {
        Err(refused) => {
            let size = put_refused(out, text, needs, refused);
            Err(Trouble { size })
        }
        Ok(count) => convert_text::put_converted(out, &words[..count]),
    }
}

// The same for a text without needs: all are 0. Too many registers are refused, whatever the needs.
fn put_plain(out: &mut [u8], text: &[u8], n: u32, numbers: &[u32]) -> Result<usize, Trouble>
    requires { (max_bytes ≤ length out.old) × (length text.now ≤ text_bytes) }
    ensures { MadeAs (made_from text.now 0 n numbers.now (zeros (2 * n))) out.old out.new result }
{
    let none = [0u32; NEEDS];
    if n > MAX_REGISTERS {
        return put_made(out, text, 0, n, numbers, &none);
    }
    let count = 2 * n as usize;
    put_made(out, text, 0, n, numbers, &none[..count])
}

// The bytes of the list that the numbers of a text make: the count of registers, then so many needs, then four for each pair.
fn put_numbers(out: &mut [u8], text: &[u8], needs: usize, numbers: &[u32]) -> Result<usize, Trouble>
    requires { ((max_bytes ≤ length out.old) × (length text.now ≤ text_bytes)) × ((needs < length numbers.now) × (needs ≤ max_numbers)) }
    ensures { MadeAs (made_with text.now needs (get_or numbers.now 0 0) (drop 1 numbers.now))
        out.old out.new result }
{
    if needs == 0 {
        return put_plain(out, text, numbers[0], &numbers[1..]);
    }
    let from = 1 + needs;
    put_made(
        out,
        text,
        needs,
        numbers[0],
        &numbers[from..],
        &numbers[1..from],
    )
}

// The bytes of the list that a text describes, in the first places of `out`; later places keep their contents. The pairs of the text come in
// any order; those of the same registers are joined. Of a faulty text, or of numbers that make no list, one line says what is wrong.
pub fn make(text: &[u8], out: &mut [u8; MAX_BYTES]) -> Result<usize, Trouble>
    ensures { MadeAs (made text.now) out.old out.new result }
{
    let mut numbers = [0u32; MAX_NUMBERS];
    match scan::scan(text, true, &mut numbers) {
        Err(wrong) => {
            let size = refusal_text::tell_fault(out, wrong);
            Err(Trouble { size })
        }
        Ok(found) => put_numbers(out, text, found.needs, &numbers[..found.count]),
    }
}
