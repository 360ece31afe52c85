// The text of a free schedule, and of a split at a period and an offset, for the bytes of a delay list.
// The contracts cite `specs/ScheduleText.antt`.
#![tactic(auto)]

ghost use Rattle.std.specs.Prelude.{◌+◌, ◌*◌, ◌≤◌, length, ◌++◌, ◌≡◌};
ghost use Rattle.timing.specs.Limits.{max_registers, max_scratch};
ghost use Rattle.text_pieces.specs.Pieces.{Put, letters, number, space, newline};
ghost use Rattle.refusals.specs.Checks.{number_of};
ghost use Rattle.refusals.specs.Reply.{told};
ghost use Rattle.list_format.specs.Lists.{registers};
ghost use Rattle.text_pieces.specs.Saying.{SaidAs};
ghost use Rattle.refusal_text.specs.RefusalText.{line_width, cause_number, caused_line, refused_saying};
ghost use Rattle.free_schedule.specs.FreeCall.{freeing};
ghost use Rattle.split.specs.Splitting.{splitting};
ghost use Rattle.schedule_text.specs.ScheduleText.{timing_width, free_width, split_width, schedule_places, timing_lines, free_line, free_said};
ghost use Rattle.schedule_text.specs.ScheduleText.{free_text, split_cause, split_refused, split_said, split_text};

use free_schedule::Periods;
use list_bytes::MAX_WORDS;
use refusal_text::{Cause, LINE_WIDTH};
use refusals::{Refusal, Refused};
use text_pieces::{NUMBER_WIDTH, Trouble, put_bytes, put_named, put_number};
use timing::{MAX_PERIOD, MAX_REGISTERS, MAX_SCRATCH};

const REGISTER_PLACES: usize = MAX_REGISTERS as usize;

// The most bytes of the line of a register.
const TIMING_WIDTH: usize = 2 * NUMBER_WIDTH;

// Places enough for any text: a line for each register, and before them the longest line there is.
pub const TEXT_PLACES: usize = TIMING_WIDTH * REGISTER_PLACES + LINE_WIDTH;

// A register and its timing.
fn put_timing(text: &mut [u8], at: usize, r: usize, timing: u32) -> usize
    requires { at + timing_width ≤ length text.old }
    ensures { Put timing_width (number r space ++ number timing newline) text.old at text.new result }
{
    let a = put_number(text, at, r as u64, b' ');
    put_number(text, a, timing as u64, b'\n')
}

// A line for each of n registers.
fn put_timings(text: &mut [u8], at: usize, timings: &[u32], n: usize) -> usize
    requires { (n ≤ length timings.now) × (at + timing_width * n ≤ length text.old) }
    ensures { Put (timing_width * n) (timing_lines n timings.now) text.old at text.new result }
{
    let mut last = at;
    for r in 0..n {
        last = put_timing(text, last, r, timings[r]);
    }
    last
}

// The two periods, and a line for each of n registers.
fn put_free(text: &mut [u8], periods: Periods, timings: &[u32], n: usize) -> usize
    requires { (n ≤ length timings.now) × (free_width + timing_width * n ≤ length text.old) }
    ensures { Put (free_width + timing_width * n) (free_line periods.common periods.free ++ timing_lines n timings.now)
        text.old 0 text.new result }
{
    let a = put_named(text, 0, b"common ", periods.common as u64, b' ');
    let b = put_named(text, a, b"free ", periods.free as u64, b'\n');
    put_timings(text, b, timings, n)
}

// The free schedule for a run of words.
fn put_free_words(text: &mut [u8], words: &[u32]) -> Result<usize, Trouble>
    requires { schedule_places ≤ length text.old }
    ensures { SaidAs schedule_places (told refused_saying (free_said (registers words.now)) (freeing words.now max_registers))
        text.old text.new result }
{
    let mut answer = [0u32; REGISTER_PLACES];
    match free_schedule::free(words, &mut answer) {
        Err(refused) => {
            let size = refusal_text::tell_refusal(text, refused);
            Err(Trouble { size })
        }
        Ok(periods) => {
            let n = words::head_registers(words[0]) as usize;
            Ok(put_free(text, periods, &answer, n))
        }
    }
}

// The free schedule of the list whose bytes are given, or what is wrong, in the first places of `text`; later places keep their contents.
pub fn free_text(bytes: &[u8], text: &mut [u8; TEXT_PLACES]) -> Result<usize, Trouble>
    ensures { SaidAs schedule_places (free_text bytes.now) text.old text.new result }
{
    let mut words = [0u32; MAX_WORDS];
    let count = list_bytes::load(bytes, &mut words);
    put_free_words(text, &words[..count])
}

// `split`, and a line for each of n registers.
fn put_split(text: &mut [u8], timings: &[u32], n: usize) -> usize
    requires { (n ≤ length timings.now) × (split_width + timing_width * n ≤ length text.old) }
    ensures { Put (split_width + timing_width * n) (letters "split\n" ++ timing_lines n timings.now)
        text.old 0 text.new result }
{
    let at = put_bytes(text, 0, b"split\n");
    put_timings(text, at, timings, n)
}

// What a refusal of a period and an offset is caused by.
#[tactic(auto, unfolding(crate::specs::ScheduleText::split_cause, refusals::specs::Checks::number_of, refusal_text::specs::RefusalText::cause_number))]
fn call_cause(period: u32) -> Cause
    ensures { cause_number result ≡ split_cause period 3 }
{
    if period == 0 {
        return Cause::Period;
    }
    if period > MAX_PERIOD {
        Cause::Period
    } else {
        Cause::Offset
    }
}

// What a refusal is caused by.
#[tactic(auto, unfolding(crate::specs::ScheduleText::split_cause, refusals::specs::Checks::number_of, refusal_text::specs::RefusalText::cause_number))]
fn split_cause(period: u32, refusal: Refusal) -> Cause
    ensures { cause_number result ≡ split_cause period (number_of refusal) }
{
    match refusal {
        Refusal::Call => call_cause(period),
        _ => Cause::Of(refusal),
    }
}

// The line of a refusal, with its cause.
fn put_refused_split(text: &mut [u8], period: u32, refused: Refused) -> usize
    requires { schedule_places ≤ length text.old }
    ensures { Put line_width
        (caused_line (number_of refused.refusal) refused.place (split_cause period (number_of refused.refusal)))
        text.old 0 text.new result }
{
    refusal_text::tell_caused(text, refused, split_cause(period, refused.refusal))
}

// The split for a run of words.
fn put_split_words(
    text: &mut [u8],
    words: &[u32],
    period: u32,
    offset: u32,
) -> Result<usize, Trouble>
    requires { schedule_places ≤ length text.old }
    ensures { SaidAs schedule_places
        (told (split_refused period) (split_said (registers words.now)) (splitting words.now period offset max_registers max_scratch))
        text.old text.new result }
{
    let mut answer = [0u32; REGISTER_PLACES];
    let mut scratch = [0u32; MAX_SCRATCH];
    match split::split(words, period, offset, &mut answer, &mut scratch) {
        Err(refused) => {
            let size = put_refused_split(text, period, refused);
            Err(Trouble { size })
        }
        Ok(works) => {
            if !works {
                return Ok(put_bytes(text, 0, b"no split\n"));
            }
            let n = words::head_registers(words[0]) as usize;
            Ok(put_split(text, &answer, n))
        }
    }
}

// The first split at a period and an offset of the list whose bytes are given, or what is wrong, in the first places of `text`; later
// places keep their contents.
pub fn split_text(
    bytes: &[u8],
    period: u32,
    offset: u32,
    text: &mut [u8; TEXT_PLACES],
) -> Result<usize, Trouble>
    ensures { SaidAs schedule_places (split_text bytes.now period offset) text.old text.new result }
{
    let mut words = [0u32; MAX_WORDS];
    let count = list_bytes::load(bytes, &mut words);
    put_split_words(text, &words[..count], period, offset)
}
