// The common period, the free period and the free schedule of a usable list; the free period by trials of longer and
// longer periods, and from the common period down where they do not come to an end soon.
// The contracts cite `specs/Climbed.antt` and the laws of `free_laws`.
#![tactic(auto)]

ghost use Rattle.std.specs.Prelude.{◌≡◌, ◌-◌, ◌≤◌, ◌<◌, length};
ghost use Rattle.list_format.specs.Lists.{pairs};
ghost use Rattle.free_laws.specs.Free.{common as common_of};
ghost use Rattle.free_laws.specs.Constraint.{Bound};
ghost use Rattle.free_trials.specs.Trial.{Trial, Sought};
ghost use Rattle.free_climb.specs.Climbed.{Alone, Climbed, Ascended};

use delay_list::DelayList;
use free_rounds::NO_RULE;
use pair_ends::{Ends, REGISTERS};
use timing::{Pair, larger, less};

// The shortest period.
const SHORTEST: u32 = 1;

// What a pair alone asks of the period. One that joins a register to itself has no times to shift.
fn alone(p: Pair) -> u32
    ensures { Alone p result }
{
    if p.launch == p.capture {
        return p.greatest;
    }
    less(p.greatest, p.least)
}

// The longest period that a pair alone asks for, or 1.
fn lowest(list: DelayList) -> u32
    ensures from { 1 ≤ result }
    ensures bound { Bound (pairs list.entry.words.now) result }
{
    let mut most = SHORTEST;
    for k in 0..list.pairs {
        let p = list.pair(k);
        most = larger(most, alone(p));
    }
    most
}

// The common period: the largest greatest delay, or 1.
pub fn common(list: DelayList) -> u32
    ensures { result ≡ common_of (pairs list.entry.words.now) }
{
    let mut most = SHORTEST;
    for k in 0..list.pairs {
        let p = list.pair(k);
        most = larger(most, p.greatest);
    }
    most
}

// What trials come to: the free period, with the free schedule, or a longer period than the last that they tried, or one that they
// leave undecided.
#[derive(Clone, Copy)]
pub enum Ascent {
    Done(u32),
    Onward(u32),
    Undecided(u32),
}

// How trials are made: by so many plain rounds, or by all means if none are named; how many at most; and whether the first starts
// from parents that are kept from another period.
#[derive(Clone, Copy)]
pub struct Manner {
    pub rounds: Option<usize>,
    pub trials: usize,
    pub kept: bool,
}

// One trial. Plain rounds start with no parents.
fn attempt(
    list: DelayList,
    x: &mut [u32],
    parents: &mut [u16; REGISTERS],
    ends: Ends,
    rounds: Option<usize>,
    kept: bool,
    period: u32,
) -> Option<u32>
    requires { Trial list.words.now list.pairs period x.old }
    ensures { Sought list.entry.words.now period x.new result }
{
    match rounds {
        None => free_trials::quick(list, x, parents, kept, ends, period),
        Some(most) => {
            if kept {
                parents.fill(NO_RULE);
            }
            free_trials::plain(list, x, parents, most, period)
        }
    }
}

// Trials of longer and longer periods, as each shows the next.
fn ascend(
    list: DelayList,
    x: &mut [u32],
    parents: &mut [u16; REGISTERS],
    ends: Ends,
    manner: Manner,
    start: u32,
) -> Ascent
    requires { Trial list.words.now list.pairs start x.old }
    ensures { Ascended list.entry.words.now x.new result }
{
    let mut period = start;
    let mut kept = manner.kept;
    for _ in 0..manner.trials {
        let Some(next) = attempt(list, x, parents, ends, manner.rounds, kept, period) else {
            return Ascent::Undecided(period);
        };
        if next == period {
            return Ascent::Done(period);
        }
        period = next;
        kept = true;
    }
    Ascent::Onward(period)
}

// Trials by rounds over all pairs, which leave nothing undecided.
fn finish(list: DelayList, x: &mut [u32], start: u32) -> u32
    requires { Trial list.words.now list.pairs start x.old }
    ensures { Climbed list.entry.words.now x.new result }
{
    let mut period = start;
    loop {
        let next = free_trials::steady(list, x, period);
        if next == period {
            return period;
        }
        period = next;
    }
}

// So many trials after a descent that was not enough, then rounds over all pairs.
const RETRIES: usize = 64;

// From a period that a descent came to: trials with the parents that it left.
fn close(
    list: DelayList,
    x: &mut [u32],
    parents: &mut [u16; REGISTERS],
    ends: Ends,
    start: u32,
) -> u32
    requires { Trial list.words.now list.pairs start x.old }
    ensures { Climbed list.entry.words.now x.new result }
{
    let manner = Manner {
        rounds: None,
        trials: RETRIES,
        kept: true,
    };
    match ascend(list, x, parents, ends, manner, start) {
        Ascent::Done(period) => period,
        Ascent::Onward(low) | Ascent::Undecided(low) => finish(list, x, low),
    }
}

// A trial of the period that a descent came to by the parents that it left; where that is not enough, others.
fn land(
    list: DelayList,
    x: &mut [u32],
    parents: &mut [u16; REGISTERS],
    ends: Ends,
    period: u32,
) -> u32
    requires { Trial list.words.now list.pairs period x.old }
    ensures { Climbed list.entry.words.now x.new result }
{
    if let Some(told) = free_trials::follow(list, x, parents, period) {
        if told == period {
            return period;
        }
    }
    close(list, x, parents, ends, period)
}

// The period that a descent from the common one comes to, `low` or longer.
fn come_down(
    list: DelayList,
    x: &mut [u32],
    parents: &mut [u16; REGISTERS],
    ends: Ends,
    low: u32,
) -> u32
    requires { Trial list.words.now list.pairs low x.old }
    ensures { Trial list.entry.words.now list.entry.pairs result x.new }
{
    let shown = free_descent::descend(list, x, parents, ends, low);
    larger(low, shown)
}

// Trials from a period on, and a descent where they do not come to an end.
fn climb_on(
    list: DelayList,
    x: &mut [u32],
    parents: &mut [u16; REGISTERS],
    ends: Ends,
    manner: Manner,
    start: u32,
) -> u32
    requires { Trial list.words.now list.pairs start x.old }
    ensures { Climbed list.entry.words.now x.new result }
{
    match ascend(list, x, parents, ends, manner, start) {
        Ascent::Done(period) => period,
        Ascent::Onward(low) | Ascent::Undecided(low) => {
            let period = come_down(list, x, parents, ends, low);
            land(list, x, parents, ends, period)
        }
    }
}

// Up to so many pairs a round takes less time than what stands behind it; then plain trials of so many rounds come first.
const FEW_PAIRS: usize = 512;

// How many of them: with few registers a descent is dear beside them; with many, where it takes longest, they are worth another.
const FEW_REGISTERS: usize = 64;

const MANY_REGISTERS: usize = 256;

fn plain_rounds(n: usize) -> usize {
    if n < MANY_REGISTERS { 5 } else { 6 }
}

fn plain_trials(n: usize) -> usize {
    if n < FEW_REGISTERS {
        return 6;
    }
    if n < MANY_REGISTERS { 1 } else { 2 }
}

// A list of few pairs: plain trials; where one is left undecided, one by all means.
fn climb_few(
    list: DelayList,
    x: &mut [u32],
    parents: &mut [u16; REGISTERS],
    ends: Ends,
    start: u32,
) -> u32
    requires { Trial list.words.now list.pairs start x.old }
    ensures { Climbed list.entry.words.now x.new result }
{
    let plain = Manner {
        rounds: Some(plain_rounds(x.len())),
        trials: plain_trials(x.len()),
        kept: false,
    };
    let once = Manner {
        rounds: None,
        trials: 1,
        kept: true,
    };
    match ascend(list, x, parents, ends, plain, start) {
        Ascent::Done(period) => period,
        Ascent::Onward(low) => {
            let period = come_down(list, x, parents, ends, low);
            land(list, x, parents, ends, period)
        }
        Ascent::Undecided(period) => climb_on(list, x, parents, ends, once, period),
    }
}

// So many trials of a list of many pairs before the descent.
const TRIALS: usize = 4;

// The free period; the free schedule fills x.
pub fn climb(list: DelayList, x: &mut [u32], ends: Ends) -> u32
    requires { length x.old ≡ list.registers }
    ensures { Climbed list.entry.words.now x.new result }
{
    let mut parents = [NO_RULE; REGISTERS];
    let start = lowest(list);
    if list.pairs <= FEW_PAIRS {
        return climb_few(list, x, &mut parents, ends, start);
    }
    let manner = Manner {
        rounds: None,
        trials: TRIALS,
        kept: false,
    };
    climb_on(list, x, &mut parents, ends, manner, start)
}
