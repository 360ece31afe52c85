// The text for a schedule that is checked against a delay list: the list as bytes, the schedule as text.
// The contracts cite `specs/CheckText.antt`.
#![tactic(auto)]

ghost use Rattle.std.specs.Prelude.{◌≡◌, ◌+◌, ◌≤◌, length};
ghost use Rattle.text_pieces.specs.Pieces.{Put};
ghost use Rattle.text_pieces.specs.Saying.{SaidAs};
ghost use Rattle.refusals.specs.Checks.{number_of};
ghost use Rattle.refusal_text.specs.RefusalText.{line_width, cause_number, caused_line};
ghost use Rattle.list_format.specs.Lists.{registers, PairIn};
ghost use Rattle.list_bytes.specs.ListBytes.{list_of};
ghost use Rattle.checker.specs.declared.Checking.TheVariants.{Admissible, Broken};
ghost use Rattle.check_text.specs.CheckText.{rule_width, of_width, registers_width, broken_width, margin_width, pair_width, text_places};
ghost use Rattle.check_text.specs.CheckText.{rule_words, of_words, registers_words, broken_line, margin_words, pair_words, margin_line, answer_text};
ghost use Rattle.check_text.specs.CheckText.{check_cause, checked_said, check_text};

use checker::{Checking, Rule, Smallest};
use list_bytes::MAX_WORDS;
use refusal_text::Cause;
use refusals::{Refusal, Refused};
use scan::MAX_NUMBERS;
use text_pieces::{NUMBER_WIDTH, SIGNED_WIDTH, Trouble, put_bytes, put_named, put_signed};
use timing::MAX_PERIOD;

// The most bytes of the registers of a pair, of the line of a pair that breaks a rule, and of the line of a margin.
const REGISTERS_WIDTH: usize = 7 + NUMBER_WIDTH + (8 + NUMBER_WIDTH);

const BROKEN_WIDTH: usize = 5 + NUMBER_WIDTH + (14 + REGISTERS_WIDTH);

const MARGIN_WIDTH: usize = 16 + (SIGNED_WIDTH + 10) + (5 + NUMBER_WIDTH + (1 + REGISTERS_WIDTH));

// Places enough for any text.
pub const TEXT_PLACES: usize = BROKEN_WIDTH + MARGIN_WIDTH;

fn put_rule(text: &mut [u8], at: usize, rule: Rule) -> usize
    requires { at + rule_width ≤ length text.old }
    ensures { Put rule_width (rule_words rule) text.old at text.new result }
{
    match rule {
        Rule::Setup => put_bytes(text, at, b"breaks setup: "),
        Rule::Hold => put_bytes(text, at, b"breaks hold: "),
    }
}

fn put_of(text: &mut [u8], at: usize, rule: Rule) -> usize
    requires { at + of_width ≤ length text.old }
    ensures { Put of_width (of_words rule) text.old at text.new result }
{
    match rule {
        Rule::Setup => put_bytes(text, at, b" setup of "),
        Rule::Hold => put_bytes(text, at, b" hold of "),
    }
}

fn put_registers(text: &mut [u8], at: usize, launch: u32, capture: u32) -> usize
    requires { at + registers_width ≤ length text.old }
    ensures { Put registers_width (registers_words launch capture) text.old at text.new result }
{
    let next = put_named(text, at, b"launch ", launch as u64, b' ');
    put_named(text, next, b"capture ", capture as u64, b'\n')
}

// A pair that breaks a rule.
fn put_broken(text: &mut [u8], words: &[u32], k: usize, rule: Rule) -> usize
    requires pair_in { PairIn words.now k }
    requires broken_width_in_bounds { broken_width ≤ length text.old }
    ensures { Put broken_width (broken_line words.now k rule) text.old 0 text.new result }
{
    let p = delay_list::pair_at(words, k);
    let a = put_named(text, 0, b"pair ", k as u64, b' ');
    let b = put_rule(text, a, rule);
    put_registers(text, b, p.launch, p.capture)
}

// The smallest margin and the rule that has it.
fn put_margin(text: &mut [u8], at: usize, margin: i64, rule: Rule) -> usize
    requires { at + margin_width ≤ length text.old }
    ensures { Put margin_width (margin_words margin rule) text.old at text.new result }
{
    let a = put_bytes(text, at, b"smallest margin ");
    let b = put_signed(text, a, margin, b':');
    put_of(text, b, rule)
}

// A pair and its registers.
fn put_pair(text: &mut [u8], at: usize, k: usize, launch: u32, capture: u32) -> usize
    requires { at + pair_width ≤ length text.old }
    ensures { Put pair_width (pair_words k launch capture) text.old at text.new result }
{
    let a = put_named(text, at, b"pair ", k as u64, b',');
    let b = put_bytes(text, a, b" ");
    put_registers(text, b, launch, capture)
}

// The smallest margin, and the pair that has it.
fn put_smallest(text: &mut [u8], at: usize, words: &[u32], x: Smallest) -> usize
    requires pair_in { PairIn words.now x.pair }
    requires pair_width_in_bounds { at + (margin_width + pair_width) ≤ length text.old }
    ensures { Put (margin_width + pair_width) (margin_line words.now x) text.old at text.new result }
{
    let p = delay_list::pair_at(words, x.pair);
    let rule = x.rule;
    let next = put_margin(text, at, x.margin, rule);
    put_pair(text, next, x.pair, p.launch, p.capture)
}

// An admissible schedule.
fn put_admissible(text: &mut [u8], words: &[u32], x: Smallest) -> usize
    requires pair_in { PairIn words.now x.pair }
    requires text_places_in_bounds { text_places ≤ length text.old }
    ensures { Put text_places (answer_text words.now (Admissible x)) text.old 0 text.new result }
{
    let a = put_bytes(text, 0, b"admissible\n");
    put_smallest(text, a, words, x)
}

// A schedule of which pair k is the first that breaks a rule.
fn put_failed(text: &mut [u8], words: &[u32], k: usize, rule: Rule, x: Smallest) -> usize
    requires pair_in { PairIn words.now k }
    requires pair_in_2 { PairIn words.now x.pair }
    requires text_places_in_bounds { text_places ≤ length text.old }
    ensures { Put text_places (answer_text words.now (Broken k rule x)) text.old 0 text.new result }
{
    let a = put_broken(text, words, k, rule);
    put_smallest(text, a, words, x)
}

// The count of registers of a run of words.
fn registers_of(words: &[u32]) -> usize
    ensures { result ≡ registers words.now }
{
    if words.is_empty() {
        return 0;
    }
    words::head_registers(words[0]) as usize
}

// What a refusal of a period and so many timings is caused by.
#[tactic(auto, unfolding(refusal_text::specs::RefusalText::cause_number))]
fn call_cause(words: &[u32], period: u32, count: usize) -> Cause
    ensures { cause_number result ≡ check_cause words.now period count 3 }
{
    if period == 0 {
        return Cause::Period;
    }
    if period > MAX_PERIOD {
        return Cause::Period;
    }
    if count == registers_of(words) {
        return Cause::Timing;
    }
    Cause::Count
}

// What a refusal is caused by.
#[tactic(auto, unfolding(crate::specs::CheckText::check_cause, refusals::specs::Checks::number_of, refusal_text::specs::RefusalText::cause_number))]
fn check_cause(words: &[u32], period: u32, count: usize, refusal: Refusal) -> Cause
    ensures { cause_number result ≡ check_cause words.now period count (number_of refusal) }
{
    match refusal {
        Refusal::Call => call_cause(words, period, count),
        _ => Cause::Of(refusal),
    }
}

// The line of a refusal, with its cause.
fn put_refused_check(
    text: &mut [u8],
    words: &[u32],
    period: u32,
    count: usize,
    refused: Refused,
) -> usize
    requires { text_places ≤ length text.old }
    ensures { Put line_width
        (caused_line (number_of refused.refusal) refused.place (check_cause words.now period count (number_of refused.refusal)))
        text.old 0 text.new result }
{
    let cause = check_cause(words, period, count, refused.refusal);
    refusal_text::tell_caused(text, refused, cause)
}

// The check of a schedule against a run of words.
fn put_checked(
    text: &mut [u8],
    words: &[u32],
    period: u32,
    timings: &[u32],
) -> Result<usize, Trouble>
    requires { text_places ≤ length text.old }
    ensures { SaidAs text_places (checked_said words.now period timings.now) text.old text.new result }
{
    match checker::check(words, period, timings) {
        Err(refused) => {
            let size = put_refused_check(text, words, period, timings.len(), refused);
            Err(Trouble { size })
        }
        Ok(checked) => match checked {
            Checking::NoPairs => Ok(put_bytes(text, 0, b"admissible\nno pairs\n")),
            Checking::Admissible(x) => Ok(put_admissible(text, words, x)),
            Checking::Broken(k, rule, x) => Ok(put_failed(text, words, k, rule, x)),
        },
    }
}

// And against the bytes of a list.
fn put_against(
    text: &mut [u8],
    bytes: &[u8],
    period: u32,
    timings: &[u32],
) -> Result<usize, Trouble>
    requires { text_places ≤ length text.old }
    ensures { SaidAs text_places (checked_said (list_of bytes.now) period timings.now)
        text.old text.new result }
{
    let mut words = [0u32; MAX_WORDS];
    let count = list_bytes::load(bytes, &mut words);
    put_checked(text, &words[..count], period, timings)
}

// Checks the schedule whose text is given, one timing for each register, against the list whose bytes are given. The text is stored in the
// first places of `text`; later places keep their contents.
pub fn check_text(
    bytes: &[u8],
    period: u32,
    timings: &[u8],
    text: &mut [u8; TEXT_PLACES],
) -> Result<usize, Trouble>
    ensures { SaidAs text_places (check_text bytes.now period timings.now) text.old text.new result }
{
    let mut numbers = [0u32; MAX_NUMBERS];
    match scan::scan(timings, false, &mut numbers) {
        Err(wrong) => {
            let size = refusal_text::tell_fault(text, wrong);
            Err(Trouble { size })
        }
        Ok(found) => put_against(text, bytes, period, &numbers[..found.count]),
    }
}
