// From the bytes of a delay list to the text of its plan.
// The contracts cite `specs/Report.antt`.
#![tactic(auto)]

ghost use Rattle.std.specs.Prelude.{[], ◌∷◌, ◌+◌, ◌*◌, ◌≤◌, length};
ghost use Rattle.text_pieces.specs.Pieces.{Put};
ghost use Rattle.report.specs.Report.{periods_width, register_width, text_places, periods_line, register_line, register_lines, plan_lines};
ghost use Rattle.report.specs.Report.{refused_line, plan_of, report};
ghost use Rattle.refusals.specs.Reply.{told};
ghost use Rattle.list_format.specs.Lists.{registers};

use list_bytes::MAX_WORDS;
use planner::Planned;
use text_pieces::{put_named, put_number, put_refused};
use timing::{MAX_REGISTERS, MAX_SCRATCH};

// The places that the plan of the largest list takes in the answer buffer.
const ANSWER_PLACES: usize = 2 * MAX_REGISTERS as usize;

// Places enough for any text: that of the largest list has at most 32,363 bytes.
pub const TEXT_PLACES: usize = 32_768;

// Line one: the three periods and the offset.
fn put_periods(text: &mut [u8], plan: Planned) -> usize
    requires { periods_width ≤ length text.old }
    ensures { Put periods_width (periods_line (plan.common ∷ plan.free ∷ plan.two ∷ plan.offset ∷ []))
        text.old 0 text.new result }
{
    let a = put_named(text, 0, b"common ", plan.common as u64, b' ');
    let b = put_named(text, a, b"free ", plan.free as u64, b' ');
    let c = put_named(text, b, b"two ", plan.two as u64, b' ');
    put_named(text, c, b"offset ", plan.offset as u64, b'\n')
}

// A register, its free timing, its two-timing value.
fn put_register(text: &mut [u8], at: usize, r: usize, free: u32, two: u32) -> usize
    requires { at + register_width ≤ length text.old }
    ensures { Put register_width (register_line r free two) text.old at text.new result }
{
    let a = put_number(text, at, r as u64, b' ');
    let b = put_number(text, a, free as u64, b' ');
    put_number(text, b, two as u64, b'\n')
}

// A line for each of n registers, whose timings stand in the first 2n places of `answer`.
fn put_registers(text: &mut [u8], at: usize, answer: &[u32], n: usize) -> usize
    requires { (2 * n ≤ length answer.now) × (at + register_width * n ≤ length text.old) }
    ensures { Put (register_width * n) (register_lines n answer.now) text.old at text.new result }
{
    let mut last = at;
    for r in 0..n {
        last = put_register(text, last, r, answer[r], answer[n + r]);
    }
    last
}

// Line one, and a line for each of n registers.
fn put_planned(text: &mut [u8], plan: Planned, answer: &[u32], n: usize) -> usize
    requires { (2 * n ≤ length answer.now) × (periods_width + register_width * n ≤ length text.old) }
    ensures { Put (periods_width + register_width * n) (plan_lines n (plan.common ∷ plan.free ∷ plan.two ∷ plan.offset ∷ []) answer.now)
        text.old 0 text.new result }
{
    let at = put_periods(text, plan);
    put_registers(text, at, answer, n)
}

// The text for a run of words.
fn put_text(text: &mut [u8], words: &[u32]) -> usize
    requires { text_places ≤ length text.old }
    ensures { Put text_places (told refused_line (plan_lines (registers words.now)) (plan_of words.now))
        text.old 0 text.new result }
{
    let mut answer = [0u32; ANSWER_PLACES];
    let mut scratch = [0u32; MAX_SCRATCH];
    match planner::plan(words, &mut answer, &mut scratch) {
        Err(refused) => put_refused(text, refused.refusal.number(), refused.place, b'\n'),
        Ok(plan) => {
            let n = words::head_registers(words[0]) as usize;
            put_planned(text, plan, &answer, n)
        }
    }
}

// The text for the bytes of a list, in the first places of `text`; later places keep their contents. The count of its bytes is returned.
pub fn report(bytes: &[u8], text: &mut [u8; TEXT_PLACES]) -> usize
    ensures { Put text_places (report bytes.now) text.old 0 text.new result }
{
    let mut words = [0u32; MAX_WORDS];
    let count = list_bytes::load(bytes, &mut words);
    put_text(text, &words[..count])
}
