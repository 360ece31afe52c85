// The text of what blocks a period, for the bytes of a delay list.
// The contracts cite `specs/WhyText.antt`.
#![tactic(auto)]

ghost use Rattle.std.specs.Prelude.{◌+◌, ◌-◌, ◌*◌, ◌^◌, ◌≤◌, ◌<◌, ◌≡◌, length};
ghost use Rattle.timing.specs.Limits.{max_registers};
ghost use Rattle.timing.specs.Rules.{setup_met};
ghost use Rattle.list_format.specs.Lists.{pairs, PairIn, IsUsable};
ghost use Rattle.list_bytes.specs.ListBytes.{list_of};
ghost use Rattle.free_laws.specs.Free.{common};
ghost use Rattle.split_laws.specs.Split.{time_of};
ghost use Rattle.split_laws.specs.Choices.{is_late, row_launch, row_capture};
ghost use Rattle.chain_laws.specs.Chains.{row_of, index_of};
ghost use Rattle.text_pieces.specs.Pieces.{Put, named, number_width};
ghost use Rattle.refusals.specs.Checks.{number_of};
ghost use Rattle.refusal_text.specs.RefusalText.{line_width, cause_number, caused_line};
ghost use Rattle.why_text.specs.WhyText.{short_width, choice_width, rule_width, choices_width, step_width, register_width, way_width, why_places};
ghost use Rattle.why_text.specs.WhyText.{choice_words, end_words, rule_words, choices_words, step_line, StepsIn, chain_lines, way_words, chain_text};
ghost use Rattle.why_text.specs.WhyText.{chains_in, ShownIn, register_line, blocked_text, why_cause, WhySaidAs};

use blocking::Blocked;
use delay_list::DelayList;
use list_bytes::MAX_WORDS;
use refusal_text::Cause;
use refusals::{Refusal, Refused};
use text_pieces::{Trouble, put_bytes, put_named};
use timing::{MAX_REGISTERS, MAX_SCRATCH, PER_PAIR, Pair};

// A step is this many times the index of its pair, plus the row of its choice.
const ROWS: u32 = PER_PAIR as u32;

// The places for the steps of the largest list.
const STEP_PLACES: usize = 4 * MAX_REGISTERS as usize;

// The most bytes of the line of a step: the words in it, three numbers below 10,000 with the bytes that end them, and two choices.
const STEP_WIDTH: usize = 5 + 8 + 10 + 14 + 3 * 5 + 2 * 5;

// The most bytes of the lines before the steps.
const HEAD_WIDTH: usize = 18 + 5 + 30 + 2 * 20;

// Places enough for any text.
pub const TEXT_PLACES: usize = HEAD_WIDTH + STEP_WIDTH * STEP_PLACES;

// A name, a number below 10,000, and the byte that ends it.
fn put_short(text: &mut [u8], at: usize, name: &[u8], n: usize, end: u8) -> usize
    requires n_bound { n < 10 ^ 4 }
    requires number_width_in_bounds { at + length name.now + number_width ≤ length text.old }
    ensures { Put (length name.now + short_width) (named name.now n end) text.old at text.new result }
{
    put_named(text, at, name, n as u64, end)
}

fn put_choice(text: &mut [u8], at: usize, mark: u32) -> usize
    requires { at + choice_width ≤ length text.old }
    ensures { Put choice_width (choice_words (is_late mark)) text.old at text.new result }
{
    if mark == marks::LATE {
        return put_bytes(text, at, b"late");
    }
    put_bytes(text, at, b"early")
}

// An end of a pair: its name, its register, its choice.
fn put_end(text: &mut [u8], at: usize, name: &[u8], register: u32, mark: u32) -> usize
    requires register_lt_max_registers { register < max_registers }
    requires number_width_in_bounds { at + length name.now + number_width ≤ length text.old }
    ensures { Put (length name.now + short_width + choice_width) (end_words name.now register (is_late mark))
        text.old at text.new result }
{
    let a = put_short(text, at, name, register as usize, b' ');
    put_choice(text, a, mark)
}

// The rule that is broken: setup, or hold where setup is met.
fn put_rule(text: &mut [u8], at: usize, met: bool) -> usize
    requires { at + rule_width ≤ length text.old }
    ensures { Put rule_width (rule_words met) text.old at text.new result }
{
    if met {
        return put_bytes(text, at, b" breaks hold\n");
    }
    put_bytes(text, at, b" breaks setup\n")
}

// Whether a pair with these choices meets setup.
fn setup_met(pair: Pair, period: u32, offset: u32, launch: u32, capture: u32) -> bool
    ensures { result ≡ setup_met pair period (time_of offset (is_late launch)) (time_of offset (is_late capture)) }
{
    let a = marks::time_of(offset, launch);
    let b = marks::time_of(offset, capture);
    pair.setup_margin(period, a, b) >= 0
}

// Both ends of a pair with their choices, and the rule that these break.
fn put_choices(
    text: &mut [u8],
    at: usize,
    pair: Pair,
    period: u32,
    offset: u32,
    launch: u32,
    capture: u32,
) -> usize
    requires launch_lt_max_registers { (pair.launch < max_registers) × (pair.capture < max_registers) }
    requires choices_width_in_bounds { at + choices_width ≤ length text.old }
    ensures { Put choices_width (choices_words period offset pair (is_late launch) (is_late capture)) text.old at text.new result }
{
    let a = put_end(text, at, b" launch ", pair.launch, launch);
    let b = put_end(text, a, b", capture ", pair.capture, capture);
    put_rule(text, b, setup_met(pair, period, offset, launch, capture))
}

// The choice of the launch in a step: 1 early, 2 late.
fn launch_mark(step: u32) -> u32
    ensures { result ≡ row_launch (row_of step) }
{
    1 + step % ROWS / 2
}

// The choice of the capture.
fn capture_mark(step: u32) -> u32
    ensures { result ≡ row_capture (row_of step) }
{
    1 + step % ROWS % 2
}

// The line of a step.
fn put_step(text: &mut [u8], at: usize, words: &[u32], period: u32, offset: u32, step: u32) -> usize
    requires pair_in { PairIn words.now (index_of step) }
    requires step_width_in_bounds { at + step_width ≤ length text.old }
    ensures { Put step_width (step_line period offset (pairs words.now) step) text.old at text.new result }
{
    let k = (step / ROWS) as usize;
    let pair = delay_list::pair_at(words, k);
    let a = put_short(text, at, b"pair ", k, b':');
    put_choices(
        text,
        a,
        pair,
        period,
        offset,
        launch_mark(step),
        capture_mark(step),
    )
}

// A line for each step of a chain.
fn put_steps(
    text: &mut [u8],
    at: usize,
    words: &[u32],
    period: u32,
    offset: u32,
    steps: &[u32],
) -> usize
    requires steps_in { StepsIn words.now steps.now }
    requires steps_in_bounds { at + step_width * length steps.now ≤ length text.old }
    ensures { Put (step_width * length steps.now) (chain_lines period offset (pairs words.now) steps.now)
        text.old at text.new result }
{
    let mut last = at;
    for step in steps {
        last = put_step(text, last, words, period, offset, *step);
    }
    last
}

// Where a chain leads, by the choice that it begins with.
fn put_way(text: &mut [u8], at: usize, late: bool) -> usize
    requires { at + way_width ≤ length text.old }
    ensures { Put way_width (way_words late) text.old at text.new result }
{
    if late {
        return put_bytes(text, at, b"from late to early:\n");
    }
    put_bytes(text, at, b"from early to late:\n")
}

// A chain: where it leads, and its steps.
fn put_chain(
    text: &mut [u8],
    at: usize,
    words: &[u32],
    period: u32,
    offset: u32,
    late: bool,
    steps: &[u32],
) -> usize
    requires steps_in { StepsIn words.now steps.now }
    requires steps_in_bounds { at + (way_width + step_width * length steps.now) ≤ length text.old }
    ensures { Put (way_width + step_width * length steps.now)
        (chain_text period offset (pairs words.now) late steps.now)
        text.old at text.new result }
{
    let a = put_way(text, at, late);
    put_steps(text, a, words, period, offset, steps)
}

// The register that can be neither early nor late.
fn put_register(text: &mut [u8], register: u32) -> usize
    requires register_lt_max_registers { register < max_registers }
    requires register_width_in_bounds { register_width ≤ length text.old }
    ensures { Put register_width (register_line register) text.old 0 text.new result }
{
    let a = put_short(text, 0, b"blocked: register ", register as usize, b' ');
    put_bytes(text, a, b"can be neither early nor late\n")
}

// The offset common less period, or 0 if that is negative.
fn offset_at(words: &[u32], period: u32) -> u32
    requires { IsUsable words.now }
    ensures { result ≡ common (pairs words.now) - period }
{
    let list = DelayList {
        words,
        registers: words::head_registers(words[0]) as usize,
        pairs: words::head_pairs(words[0]) as usize,
    };
    timing::less(free_climb::common(list), period)
}

// The register and the two chains at it, whose steps stand one after the other.
fn put_blocked(
    text: &mut [u8],
    words: &[u32],
    period: u32,
    blocked: Blocked,
    steps: &[u32],
) -> usize
    requires shown_in { ShownIn words.now (chains_in blocked.register blocked.first blocked.second steps.now) }
    requires second_in_bounds { blocked.first + blocked.second ≤ length steps.now }
    requires why_places_in_bounds { why_places ≤ length text.old }
    ensures { Put why_places
        (blocked_text period (common (pairs words.now) - period) (pairs words.now)
        (chains_in blocked.register blocked.first blocked.second steps.now))
        text.old 0 text.new result }
{
    let offset = offset_at(words, period);
    let first = blocked.first as usize;
    let end = first + blocked.second as usize;
    let a = put_register(text, blocked.register);
    let b = put_chain(text, a, words, period, offset, false, &steps[..first]);
    put_chain(text, b, words, period, offset, true, &steps[first..end])
}

// What a refusal is caused by.
#[tactic(auto, unfolding(crate::specs::WhyText::why_cause, refusals::specs::Checks::number_of, refusal_text::specs::RefusalText::cause_number))]
fn why_cause(refusal: Refusal) -> Cause
    ensures { cause_number result ≡ why_cause (number_of refusal) }
{
    match refusal {
        Refusal::Call => Cause::Period,
        _ => Cause::Of(refusal),
    }
}

// The line of a refusal, with its cause.
fn put_refused_why(text: &mut [u8], refused: Refused) -> usize
    requires { why_places ≤ length text.old }
    ensures { Put line_width (caused_line (number_of refused.refusal) refused.place (why_cause (number_of refused.refusal)))
        text.old 0 text.new result }
{
    refusal_text::tell_caused(text, refused, why_cause(refused.refusal))
}

// What blocks the period, for a run of words.
fn put_why(text: &mut [u8], words: &[u32], period: u32) -> Result<usize, Trouble>
    requires { why_places ≤ length text.old }
    ensures { WhySaidAs words.now period text.old text.new result }
{
    let mut answer = [0u32; STEP_PLACES];
    let mut scratch = [0u32; MAX_SCRATCH];
    match blocking::why_not(words, period, &mut answer, &mut scratch) {
        Err(refused) => {
            let size = put_refused_why(text, refused);
            Err(Trouble { size })
        }
        Ok(found) => match found {
            None => Ok(put_bytes(text, 0, b"workable\n")),
            Some(blocked) => Ok(put_blocked(text, words, period, blocked, &answer)),
        },
    }
}

// Whether some split works at a period for the list whose bytes are given, with any offset, or what blocks the period, or what is wrong,
// in the first places of `text`; later places keep their contents.
pub fn why_text(bytes: &[u8], period: u32, text: &mut [u8; TEXT_PLACES]) -> Result<usize, Trouble>
    ensures { WhySaidAs (list_of bytes.now) period text.old text.new result }
{
    let mut words = [0u32; MAX_WORDS];
    let count = list_bytes::load(bytes, &mut words);
    put_why(text, &words[..count], period)
}
