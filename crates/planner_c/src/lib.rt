// The six jobs and the converter for C and Rust: plain numbers, slices as pointer and length, and a reply of nine places.
// Each contract is the job's own record, of the answer that status and reply tell (`specs/Coded.antt`).
// `proofs/Apart.antt` proves that no two answers of a job are told alike, so that the record holds of what the caller reads.
#![tactic(auto)]

ghost use Rattle.std.specs.Prelude.{◌≡◌, [], ◌∷◌};
ghost use Rattle.std.specs.Prelude.{Ok};
ghost use Rattle.refusals.specs.Checks.{number_of};
ghost use Rattle.list_format.specs.Read.{read_reply};
ghost use Rattle.list_format.specs.Write.{write_reply};
ghost use Rattle.list_format.specs.RoundTrip.{ReadAs, WrittenAs};
ghost use Rattle.converter.specs.Convert.{convert_reply, ConvertedAs};
ghost use Rattle.checker.specs.Check.{check_reply, rule_number, CheckedAs};
ghost use Rattle.checker.specs.declared.Checking.TheVariants.{Admissible, Broken};
ghost use Rattle.free_schedule.specs.FreeCall.{free_reply, FreeAs};
ghost use Rattle.split.specs.Splitting.{split_reply, SplitAs};
ghost use Rattle.planner.specs.PlanCall.{plan_reply, PlanAs};
ghost use Rattle.blocking.specs.Blocking.{why_reply, WhyAs};
ghost use Rattle.text_pieces.specs.Pieces.{Put};
ghost use Rattle.report.specs.Report.{text_places, report};
ghost use Rattle.planner_c.specs.Coded.{result_status, places_of, AnswerCoded};

use checker::{Checking, Rule, Smallest};
use refusals::Refused;

// A count of values, then eight of them.
const REPLY_PLACES: usize = 9;

// The status of a result; a refusal's is its number.
const RESULT: u32 = 0;

// The rules by number.
const SETUP: u64 = 0;

const HOLD: u64 = 1;

// The value of job 4: whether there is a split.
const NO_SPLIT: u64 = 0;

const SPLIT: u64 = 1;

// The first value of the reason for a period: whether chains are shown.
const WORKABLE: u64 = 0;

const BLOCKED: u64 = 1;

// The reply of a result: how many values, and the first five of them; no job has more. The status of a result is returned.
fn tell(reply: &mut [u64; REPLY_PLACES], count: u64, a: u64, b: u64, c: u64, d: u64, e: u64) -> u32
    ensures status { result ≡ result_status }
    ensures places { reply.new ≡ count ∷ a ∷ b ∷ c ∷ d ∷ e ∷ 0 ∷ 0 ∷ 0 ∷ [] }
{
    *reply = [count, a, b, c, d, e, 0, 0, 0];
    RESULT
}

// The reply of a refusal: its place. The refusal's number is returned.
fn refuse(reply: &mut [u64; REPLY_PLACES], refused: Refused) -> u32
    ensures status { result ≡ number_of refused.refusal }
    ensures places { reply.new ≡ 1 ∷ refused.place ∷ 0 ∷ 0 ∷ 0 ∷ 0 ∷ 0 ∷ 0 ∷ 0 ∷ [] }
{
    tell(reply, 1, refused.place as u64, 0, 0, 0, 0);
    refused.refusal.number()
}

// The number of a rule.
#[tactic(auto, unfolding(checker::specs::Check::rule_number))]
fn rule_number(rule: Rule) -> u64
    ensures { result ≡ rule_number rule }
{
    match rule {
        Rule::Setup => SETUP,
        Rule::Hold => HOLD,
    }
}

// Reads a delay list. Reply: the counts of registers and pairs. Four numbers for each pair fill the first places of `answer`, then two needs
// for each register.
#[unsafe(no_mangle)]
pub extern "C" fn darnerflax_read(
    words: &[u32],
    answer: &mut [u32],
    reply: &mut [u64; REPLY_PLACES],
) -> u32
    ensures { AnswerCoded read_reply (ReadAs words.now answer.old answer.new) result reply.new }
{
    match read_list::read(words, answer) {
        Err(unread) => refuse(reply, unread),
        Ok(counts) => tell(
            reply,
            2,
            counts.registers as u64,
            counts.pairs as u64,
            0,
            0,
            0,
        ),
    }
}

// Writes the delay list of n registers from four numbers for each pair and two needs for each register. Reply: the count of words, which fill
// the first places of `answer`.
#[unsafe(no_mangle)]
pub extern "C" fn darnerflax_write(
    n: u32,
    numbers: &[u32],
    needs: &[u32],
    answer: &mut [u32],
    reply: &mut [u64; REPLY_PLACES],
) -> u32
    ensures { AnswerCoded write_reply
        (WrittenAs n numbers.now needs.now answer.old answer.new) result reply.new }
{
    match write_list::write(n, numbers, needs, answer) {
        Err(refused) => refuse(reply, refused),
        Ok(count) => tell(reply, 1, count as u64, 0, 0, 0, 0),
    }
}

// Converts a stored list, whose pairs come in any order and may repeat, into one whose pairs ascend. Reply: the count of words, which fill
// the first places of `answer`.
#[unsafe(no_mangle)]
pub extern "C" fn darnerflax_convert(
    words: &[u32],
    answer: &mut [u32],
    reply: &mut [u64; REPLY_PLACES],
) -> u32
    ensures { AnswerCoded convert_reply (ConvertedAs words.now answer.old answer.new) result reply.new }
{
    match converter::convert(words, answer) {
        Err(damaged) => refuse(reply, damaged),
        Ok(places) => tell(reply, 1, places as u64, 0, 0, 0, 0),
    }
}

// The reply of an admissible schedule: the smallest margin, the first pair that has it, and its rule.
#[tactic(auto, unfolding(checker::specs::Check::check_reply, checker::specs::Check::check_values, checker::specs::Check::smallest_numbers, crate::specs::Coded::places_of))]
fn tell_admissible(reply: &mut [u64; REPLY_PLACES], x: Smallest) -> u32
    ensures status { result ≡ result_status }
    ensures places { reply.new ≡ places_of (check_reply (Ok (Admissible x))) }
{
    let margin = words::signed_word(x.margin);
    let rule = x.rule;
    tell(reply, 3, margin, x.pair as u64, rule_number(rule), 0, 0)
}

// And of any other: pair k and the rule that it breaks besides.
#[tactic(auto, unfolding(checker::specs::Check::check_reply, checker::specs::Check::check_values, checker::specs::Check::smallest_numbers, crate::specs::Coded::places_of))]
fn tell_broken(reply: &mut [u64; REPLY_PLACES], k: usize, broken: Rule, x: Smallest) -> u32
    ensures status { result ≡ result_status }
    ensures places { reply.new ≡ places_of (check_reply (Ok (Broken k broken x))) }
{
    let margin = words::signed_word(x.margin);
    let rule = x.rule;
    tell(
        reply,
        5,
        margin,
        x.pair as u64,
        rule_number(rule),
        k as u64,
        rule_number(broken),
    )
}

// Checks a schedule at a period. Reply: the smallest margin of all, a number with sign in two's complement, the first pair that has it, and
// its rule: 0 setup, 1 hold; if the schedule is not admissible, the first pair that breaks a rule and the rule besides. No value for a list
// without pairs.
#[unsafe(no_mangle)]
pub extern "C" fn darnerflax_check(
    words: &[u32],
    period: u32,
    timings: &[u32],
    reply: &mut [u64; REPLY_PLACES],
) -> u32
    ensures { AnswerCoded check_reply (CheckedAs words.now period timings.now) result reply.new }
{
    match checker::check(words, period, timings) {
        Err(refused) => refuse(reply, refused),
        Ok(checked) => match checked {
            Checking::NoPairs => tell(reply, 0, 0, 0, 0, 0, 0),
            Checking::Admissible(x) => tell_admissible(reply, x),
            Checking::Broken(k, rule, x) => tell_broken(reply, k, rule, x),
        },
    }
}

// Reply: the common and the free period. The free schedule fills the first n places of `answer`.
#[unsafe(no_mangle)]
pub extern "C" fn darnerflax_free(
    words: &[u32],
    answer: &mut [u32],
    reply: &mut [u64; REPLY_PLACES],
) -> u32
    ensures { AnswerCoded free_reply (FreeAs words.now answer.old answer.new) result reply.new }
{
    match free_schedule::free(words, answer) {
        Err(refused) => refuse(reply, refused),
        Ok(periods) => tell(
            reply,
            2,
            periods.common as u64,
            periods.free as u64,
            0,
            0,
            0,
        ),
    }
}

// The first split at a period and an offset. Reply: 1, its timings then fill the first n places of `answer`; or 0 if none works.
#[unsafe(no_mangle)]
pub extern "C" fn darnerflax_split(
    words: &[u32],
    period: u32,
    offset: u32,
    answer: &mut [u32],
    scratch: &mut [u32],
    reply: &mut [u64; REPLY_PLACES],
) -> u32
    ensures { AnswerCoded split_reply
        (SplitAs words.now period offset answer.old answer.new scratch.old scratch.new)
        result reply.new }
{
    match split::split(words, period, offset, answer, scratch) {
        Err(refused) => refuse(reply, refused),
        Ok(works) => match works {
            true => tell(reply, 1, SPLIT, 0, 0, 0, 0),
            false => tell(reply, 1, NO_SPLIT, 0, 0, 0, 0),
        },
    }
}

// The full plan. Reply: the common, the free and the two-timing period and the offset. The free timings fill the first n
// places of `answer`, the split's timings the next n.
#[unsafe(no_mangle)]
pub extern "C" fn darnerflax_plan(
    words: &[u32],
    answer: &mut [u32],
    scratch: &mut [u32],
    reply: &mut [u64; REPLY_PLACES],
) -> u32
    ensures { AnswerCoded plan_reply
        (PlanAs words.now answer.old answer.new scratch.old scratch.new)
        result reply.new }
{
    match planner::plan(words, answer, scratch) {
        Err(refused) => refuse(reply, refused),
        Ok(plan) => tell(
            reply,
            4,
            plan.common as u64,
            plan.free as u64,
            plan.two as u64,
            plan.offset as u64,
            0,
        ),
    }
}

// Why no split works at a period, whatever its offset. Reply: 1, a register, and the lengths of the two chains of forced choices that show it
// can be neither early nor late, whose steps fill the first places of `answer`; or 0 if some split works.
#[unsafe(no_mangle)]
pub extern "C" fn darnerflax_why_not(
    words: &[u32],
    period: u32,
    answer: &mut [u32],
    scratch: &mut [u32],
    reply: &mut [u64; REPLY_PLACES],
) -> u32
    ensures { AnswerCoded why_reply
        (WhyAs words.now period answer.old answer.new scratch.old scratch.new)
        result reply.new }
{
    match blocking::why_not(words, period, answer, scratch) {
        Err(refused) => refuse(reply, refused),
        Ok(found) => match found {
            None => tell(reply, 1, WORKABLE, 0, 0, 0, 0),
            Some(blocked) => tell(
                reply,
                4,
                BLOCKED,
                blocked.register as u64,
                blocked.first as u64,
                blocked.second as u64,
                0,
            ),
        },
    }
}

// The text of the plan of a list's bytes, in the first places of `text`. The count of its bytes is returned.
#[unsafe(no_mangle)]
pub extern "C" fn darnerflax_report(bytes: &[u8], text: &mut [u8; report::TEXT_PLACES]) -> usize
    ensures { Put text_places (report bytes.now) text.old 0 text.new result }
{
    report::report(bytes, text)
}
