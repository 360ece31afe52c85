// A trial of a period: the least schedule at it, or a longer period, below which there is none.
// The contracts cite `specs/Trial.antt` and the laws of `free_laws`.
#![tactic(auto)]

ghost use Rattle.std.specs.Prelude.{◌≡◌, ◌≤◌, length, IfSome, IfNone};
ghost use Rattle.timing.specs.Limits.{max_period, max_timing};
ghost use Rattle.buffers.specs.Over.{zeros};
ghost use Rattle.list_format.specs.Lists.{pairs};
ghost use Rattle.free_laws.specs.Constraint.{constraints, Bound};
ghost use Rattle.free_laws.specs.Raise.{Risen};
ghost use Rattle.free_rounds.specs.Raise.{Raising};
ghost use Rattle.free_trials.specs.Trial.{Trial, Judged, Tried, Sought, Trying};

use delay_list::DelayList;
use free_rounds::{NO_RULE, PARENTS};
use pair_ends::Ends;

// All registers at 0.
fn clear(x: &mut [u32])
    ensures { x.new ≡ zeros (length x.old) }
{
    x.fill(0);
}

// What raises tell by which a longer period was shown, or none: the period if the schedule is admissible, or the longer one.
fn told(list: DelayList, x: &[u32], period: u32, longer: u32) -> Option<u32>
    requires { Trial list.words.now list.pairs period x.now × Bound (pairs list.words.now) longer }
    ensures { IfSome result (Judged list.entry.words.now period x.now) }
{
    if period < longer {
        return Some(longer);
    }
    if checker::passes(list, period, x) {
        return Some(period);
    }
    None
}

// What a round that raised the register `last` last tells: the period if the schedule is admissible, or a longer one if this is
// shown too short.
fn judge(
    list: DelayList,
    x: &[u32],
    parents: &[u16; PARENTS],
    period: u32,
    last: usize,
) -> Option<u32>
    requires { Trial list.words.now list.pairs period x.now }
    ensures { IfSome result (Judged list.entry.words.now period x.now) }
{
    if last >= x.len() {
        return told(list, x, period, NOTHING);
    }
    let longer = free_cycles::cycle(list, parents, last as u32);
    if longer <= period {
        return None;
    }
    Some(longer)
}

// A trial by so many rounds over the list at most; none if they leave the period undecided.
pub fn plain(
    list: DelayList,
    x: &mut [u32],
    parents: &mut [u16; PARENTS],
    most: usize,
    period: u32,
) -> Option<u32>
    requires { Trial list.words.now list.pairs period x.old }
    ensures sought { Sought list.entry.words.now period x.new result }
    ensures trying { IfNone result (Trying list.entry.words.now period x.new most) }
{
    clear(x);
    for done in 0..most {
        let last = free_rounds::round(list, x, parents, period, done % 2 == 1);
        let found = judge(list, x, parents, period, last);
        if found.is_some() {
            return found;
        }
    }
    None
}

// A trial by rounds over all pairs, as many as registers if need be: the period, with the least schedule in x, or a longer one.
pub fn steady(list: DelayList, x: &mut [u32], period: u32) -> u32
    requires { Trial list.words.now list.pairs period x.old }
    ensures { Tried list.entry.words.now period x.new result }
{
    let mut parents = [NO_RULE; PARENTS];
    let n = x.len();
    if let Some(found) = plain(list, x, &mut parents, n, period) {
        return found;
    }
    if checker::passes(list, period, x) {
        return period;
    }
    period + 1
}

// Rounds over the list before the registers are taken one by one.
const FEW: usize = 2;

// No longer period is shown.
const NOTHING: u32 = 0;

// A few rounds over the list, each with raises along the parents after it; `old` keeps the times before the last of them.
// A longer period if a cycle of parents asks for one, else 0.
fn rounds(
    list: DelayList,
    x: &mut [u32],
    parents: &mut [u16; PARENTS],
    period: u32,
    old: &mut [u32; PARENTS],
) -> u32
    requires { Raising list.words.now list.pairs period x.old }
    ensures risen { Risen max_timing (constraints period (pairs list.entry.words.now)) x.old x.new }
    ensures bound { Bound (pairs list.entry.words.now) result }
{
    for done in 0..FEW {
        free_line::remember(x, old);
        let last = free_rounds::round(list, x, parents, period, done % 2 == 1);
        if last >= x.len() {
            return NOTHING;
        }
        let longer = free_carry::carry(list, x, parents, period);
        if period < longer {
            return longer;
        }
    }
    NOTHING
}

// Raises along the parents, if they are kept from another period.
fn resume(
    list: DelayList,
    x: &mut [u32],
    parents: &mut [u16; PARENTS],
    period: u32,
    kept: bool,
) -> u32
    requires { Raising list.words.now list.pairs period x.old }
    ensures risen { Risen max_timing (constraints period (pairs list.entry.words.now)) x.old x.new }
    ensures bound { Bound (pairs list.entry.words.now) result }
{
    if kept {
        return free_carry::carry(list, x, parents, period);
    }
    0
}

// All registers from 0 as far up as rules are seen to ask: along parents that are kept from another period, by a few rounds,
// then from register to register. A longer period if a cycle of parents asks for one, else no more than this one.
pub fn seek(
    list: DelayList,
    x: &mut [u32],
    parents: &mut [u16; PARENTS],
    kept: bool,
    period: u32,
    ends: Ends,
) -> u32
    requires { (length x.old ≡ list.registers) × (period ≤ max_period) }
    ensures risen { Risen max_timing (constraints period (pairs list.entry.words.now)) (zeros (length x.old)) x.new }
    ensures bound { Bound (pairs list.entry.words.now) result }
{
    clear(x);
    let first = resume(list, x, parents, period, kept);
    if period < first {
        return first;
    }
    let mut old = [0u32; PARENTS];
    let longer = rounds(list, x, parents, period, &mut old);
    if period < longer {
        return longer;
    }
    free_line::settle(list, x, parents, period, ends, &mut old)
}

// A trial that may start from parents kept from another period, a hint; none if it leaves the period undecided.
pub fn quick(
    list: DelayList,
    x: &mut [u32],
    parents: &mut [u16; PARENTS],
    kept: bool,
    ends: Ends,
    period: u32,
) -> Option<u32>
    requires { Trial list.words.now list.pairs period x.old }
    ensures { Sought list.entry.words.now period x.new result }
{
    let longer = seek(list, x, parents, kept, period, ends);
    told(list, x, period, longer)
}

// A trial by raises along the parents alone; none if it leaves the period undecided.
pub fn follow(
    list: DelayList,
    x: &mut [u32],
    parents: &mut [u16; PARENTS],
    period: u32,
) -> Option<u32>
    requires { Trial list.words.now list.pairs period x.old }
    ensures { Sought list.entry.words.now period x.new result }
{
    clear(x);
    let longer = free_carry::carry(list, x, parents, period);
    told(list, x, period, longer)
}
