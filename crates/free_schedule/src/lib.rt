// The common period, the free period and the free schedule of a delay list.
// The contracts cite `specs/FreeCall.antt`, and the definitions of `free_laws`.
#![tactic(auto)]

ghost use Rattle.std.specs.Prelude.{◌*◌, ◌≤◌, Ok};
ghost use Rattle.timing.specs.Limits.{max_pairs};
ghost use Rattle.list_format.specs.Lists.{IsAccepted};
ghost use Rattle.free_schedule.specs.FreeCall.{FreeAs, Roomy, FreeIn};

use delay_list::DelayList;
use pair_ends::{ENDS, Ends, FEW_ENDS, FEW_PAIRS, NONE, REGISTERS};
use refusals::{Refusal, Refused, check};

// The common and the free period.
#[derive(Clone, Copy, Debug, PartialEq, Eq)]
pub struct Periods {
    pub common: u32,
    pub free: u32,
}

// The free period of a list, with the ends of its pairs; the free schedule fills the first places, one for each register.
pub fn fill(list: DelayList, ends: Ends, answer: &mut [u32]) -> u32
    requires { Roomy list.words.now list.registers list.pairs answer.old }
    ensures { FreeIn list.entry.words.now answer.old answer.new result }
{
    free_climb::climb(list, &mut answer[..list.registers], ends)
}

// The answer for an accepted list, with so many places for the ends of its pairs. It is not put into its callers, so that only one
// of the two stands on the stack.
#[inline(never)]
fn answer_within<const PLACES: usize>(list: DelayList, answer: &mut [u32]) -> Periods
    requires places { PLACES ≤ 2 * max_pairs }
    requires list { IsAccepted list.words.now × Roomy list.words.now list.registers list.pairs answer.old }
    ensures { FreeAs list.entry.words.now answer.old answer.new (Ok result) }
{
    let mut lasts = [0u16; REGISTERS];
    let mut before = [NONE; PLACES];
    let ends = pair_ends::link(list, &mut lasts, &mut before);
    let common = free_climb::common(list);
    let free = fill(list, ends, answer);
    Periods { common, free }
}

// The same with places for the ends of few pairs, or for those of the most; 2 for an answer buffer of too few places.
fn settle(list: DelayList, answer: &mut [u32]) -> Result<Periods, Refused>
    requires { IsAccepted list.words.now }
    ensures { FreeAs list.entry.words.now answer.old answer.new result }
{
    check(answer.len() < list.registers, Refusal::Room, 0)?;
    if list.pairs <= FEW_PAIRS {
        return Ok(answer_within::<FEW_ENDS>(list, answer));
    }
    Ok(answer_within::<ENDS>(list, answer))
}

// Refusals 11 to 20 of the list, then 2: an answer buffer of fewer than n places. Else the common and the free period
// are returned, and the free schedule fills the first n places; later places keep their contents.
pub fn free(words: &[u32], answer: &mut [u32]) -> Result<Periods, Refused>
    ensures { FreeAs words.now answer.old answer.new result }
{
    let list = DelayList::accepted(words)?;
    settle(list, answer)
}
