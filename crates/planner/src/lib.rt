// The full plan of a delay list: the common, the free and the two-timing period, the offset, the free timings and the split.
// The contracts cite `specs/PlanCall.antt`, and the definitions of `free_laws`, `split_laws` and `plan_laws`.
#![tactic(auto)]

ghost use Rattle.std.specs.Prelude.{◌≡◌, ◌≤◌, ◌*◌, Ok, length, drop};
ghost use Rattle.refusals.specs.Checks.{first_fault};
ghost use Rattle.planner.specs.PlanCall.{plan_call_checks, PlanAllowed, PlanRoom, PlanIn, TwoIn, PlanAs};
ghost use Rattle.list_format.specs.Lists.{registers, pairs};
ghost use Rattle.timing.specs.Limits.{scratch_places, max_pairs};
ghost use Rattle.free_laws.specs.Free.{common as common_of, free_period};

use delay_list::DelayList;
use pair_ends::{ENDS, Ends, FEW_ENDS, FEW_PAIRS, NONE, REGISTERS};
use refusals::{Refusal, Refused, check};

// The common, the free and the two-timing period, and the offset.
#[derive(Clone, Copy, Debug, PartialEq, Eq)]
pub struct Planned {
    pub common: u32,
    pub free: u32,
    pub two: u32,
    pub offset: u32,
}

// The caller's checks: 2 for an answer buffer of fewer than 2n places, 1 for too little scratch.
#[tactic(auto, unfolding(refusals::specs::Checks::or_check, refusals::specs::Checks::fault_after))]
fn call_fault(list: DelayList, room: usize, spare: usize) -> Result<(), Refused>
    ensures { result ≡ first_fault (plan_call_checks list.entry.registers list.entry.pairs room spare) }
{
    let need = timing::scratch_places(list.registers, list.pairs);
    check(room < 2 * list.registers, Refusal::Room, 0)?;
    check(spare < need, Refusal::Scratch, 0)
}

// The two-timing period of a usable list with that common and that free period; the split's timings fill the places lent, one for each
// register, where the reaches stand until then. The ends of the pairs at each register are a hint.
fn fill_split(list: DelayList, common: u32, free: u32, ends: Ends, part: &mut [u32]) -> u32
    requires size { length part.old ≡ list.registers }
    requires common_is { common ≡ common_of (pairs list.words.now) }
    requires free_is { free ≡ free_period (registers list.words.now) (pairs list.words.now) }
    ensures { TwoIn list.entry.words.now part.new result }
{
    let two = reach::two_period(list, common, free - 1, ends, part);
    reach::write_split(part, two, common - two);
    two
}

// The plan of a usable list; the ends of its pairs fill the places lent.
fn plan_by(list: DelayList, before: &mut [u16], answer: &mut [u32]) -> Planned
    requires { PlanRoom list.words.now list.registers list.pairs answer.old }
    ensures { PlanIn list.entry.words.now answer.old answer.new (Ok result) }
{
    let mut lasts = [0u16; REGISTERS];
    let ends = pair_ends::link(list, &mut lasts, before);
    let common = free_climb::common(list);
    let free = free_schedule::fill(list, ends, answer);
    let n = list.registers;
    let two = fill_split(list, common, free, ends, &mut answer[n..2 * n]);
    let offset = common - two;
    Planned {
        common,
        free,
        two,
        offset,
    }
}

// The plan of an accepted list. Where it has words of needs they are counted into a copy of it first, in the scratch, which is
// planned in its place: so a pair is taken with no look at its needs.
fn plan_counted(
    list: DelayList,
    before: &mut [u16],
    answer: &mut [u32],
    scratch: &mut [u32],
) -> Planned
    requires { PlanAllowed list.words.now list.registers list.pairs (length answer.old) (length scratch.old) }
    ensures plan { PlanIn list.entry.words.now answer.old answer.new (Ok result) }
    ensures rest { drop (scratch_places list.entry.registers list.entry.pairs) scratch.new
        ≡ drop (scratch_places list.entry.registers list.entry.pairs) scratch.old }
{
    if delay_list::need_count(list.words) == 0 {
        return plan_by(list, before, answer);
    }
    counted_list::count_in(list.words, list.pairs, scratch);
    let counted = DelayList {
        words: scratch,
        registers: list.registers,
        pairs: list.pairs,
    };
    plan_by(counted, before, answer)
}

// The same, with so many places for the ends of the pairs. It is not put into its callers, so that only one of the two stands on the
// stack.
#[inline(never)]
fn plan_within<const PLACES: usize>(
    list: DelayList,
    answer: &mut [u32],
    scratch: &mut [u32],
) -> Planned
    requires places { PLACES ≤ 2 * max_pairs }
    requires allowed { PlanAllowed list.words.now list.registers list.pairs (length answer.old) (length scratch.old) }
    ensures plan { PlanIn list.entry.words.now answer.old answer.new (Ok result) }
    ensures rest { drop (scratch_places list.entry.registers list.entry.pairs) scratch.new
        ≡ drop (scratch_places list.entry.registers list.entry.pairs) scratch.old }
{
    let mut before = [NONE; PLACES];
    plan_counted(list, &mut before, answer, scratch)
}

// The same, with places for the ends of few pairs, or for those of the most.
fn plan_list(list: DelayList, answer: &mut [u32], scratch: &mut [u32]) -> Planned
    requires { PlanAllowed list.words.now list.registers list.pairs (length answer.old) (length scratch.old) }
    ensures plan { PlanIn list.entry.words.now answer.old answer.new (Ok result) }
    ensures rest { drop (scratch_places list.entry.registers list.entry.pairs) scratch.new
        ≡ drop (scratch_places list.entry.registers list.entry.pairs) scratch.old }
{
    if list.pairs <= FEW_PAIRS {
        plan_within::<FEW_ENDS>(list, answer, scratch)
    } else {
        plan_within::<ENDS>(list, answer, scratch)
    }
}

// The same, and the scratch is left zero.
fn show(list: DelayList, answer: &mut [u32], scratch: &mut [u32]) -> Planned
    requires { PlanAllowed list.words.now list.registers list.pairs (length answer.old) (length scratch.old) }
    ensures { PlanAs list.entry.words.now answer.old answer.new scratch.old scratch.new (Ok result) }
{
    let planned = plan_list(list, answer, scratch);
    buffers::clear(scratch, timing::scratch_places(list.registers, list.pairs));
    planned
}

// Refusals 11 to 20 of the list, then 2 and 1. Else the three periods and the offset; the free timings fill the first n
// places of the answer buffer, the split's timings the next n, and 6n + 4m places of scratch are left zero.
// All later places keep their contents; a refusal changes nothing.
pub fn plan(words: &[u32], answer: &mut [u32], scratch: &mut [u32]) -> Result<Planned, Refused>
    ensures { PlanAs words.now answer.old answer.new scratch.old scratch.new result }
{
    let list = DelayList::accepted(words)?;
    call_fault(list, answer.len(), scratch.len())?;
    Ok(show(list, answer, scratch))
}
