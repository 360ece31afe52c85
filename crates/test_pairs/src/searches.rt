// Plans by plain searches over pairs as they come, in any order and with repeats: of up to four registers, with small delays and needs.
use test_kit::lists::List;
use test_kit::places::{DIRT, rest, same};
use test_kit::rules::SPLIT;
use test_kit::schedules::Schedules;

// The most registers.
const REGISTERS: usize = 4;

// No period is longer, as no delay and setup together are, and no timing of a free schedule later.
const LONGEST: u32 = 5;

const LATEST: u32 = 12;

// The offsets that are tried are those below this; and all periods with all of these.
const OFFSETS: u32 = 8;

pub const TRIALS: u32 = LONGEST * OFFSETS;

// The least period at which all registers at 0 break no rule.
fn common(list: List<'_>) -> u32 {
    (1..LONGEST)
        .find(|t| list.admits(*t, &[0; REGISTERS]))
        .unwrap_or(LONGEST)
}

// The earlier of the timings of each register.
fn earlier(a: [u32; REGISTERS], b: [u32; REGISTERS]) -> [u32; REGISTERS] {
    let mut low = a;
    for (x, y) in low.iter_mut().zip(b) {
        *x = y.min(*x);
    }
    low
}

// The earliest timing that each register has in the schedules that break no rule at a period, if there are any.
fn earliest(list: List<'_>, period: u32) -> Option<[u32; REGISTERS]> {
    Schedules::<REGISTERS>::new(list.registers(), LATEST)
        .filter(|s| list.admits(period, s))
        .reduce(earlier)
}

// The least period at which some schedule breaks no rule, with the earliest timings.
fn free(list: List<'_>) -> Option<(u32, [u32; REGISTERS])> {
    (1..=LONGEST).find_map(|t| earliest(list, t).map(|s| (t, s)))
}

// A trial is a period and an offset; the trials come in the order of their periods, then offsets.
pub fn trial(place: u32) -> (u32, u32) {
    (1 + place / OFFSETS, place % OFFSETS)
}

// The first trial at which some split works, with the timings of the first split that does.
fn first_trial(list: List<'_>) -> Option<((u32, u32), [u32; SPLIT])> {
    (0..TRIALS).find_map(|c| {
        let (period, offset) = trial(c);
        list.first_split(period, offset)
            .map(|s| ((period, offset), s))
    })
}

// Whether the plan of some words is that of the pairs.
pub fn plan_right(list: List<'_>, words: &[u32]) -> bool {
    let n = list.needs.len();
    let mut answer = [DIRT; 8];
    let mut scratch = [DIRT; 60];
    let Ok(plan) = planner::plan(words, &mut answer, &mut scratch) else {
        return false;
    };
    let split = rest(&answer, n);
    plan.common == common(list)
        && free(list).is_some_and(|(t, s)| t == plan.free && same(&answer, &s, n))
        && first_trial(list).is_some_and(|(t, s)| {
            t == (plan.two, plan.offset) && same(split, &s, n)
        })
}
