// Random small lists: no split with an offset up to fifteen, in halves, beats the plan, and each place of the buffers is right.
use planner::Planned;
use std::io;
use test_kit::lists::List;
use test_kit::places::{DIRT, cleared, front, kept, rest, same};
use test_kit::tally::{Fate, Tally, many_lists};

// The largest lists drawn: registers and pairs.
const REGISTERS: usize = 6;

const PAIRS: usize = 6;

// The largest offset that is tried, in halves of a picosecond.
const MOST_OFFSET: u32 = 30;

// The largest need of the lists with needs.
const NEED: u32 = 3;

// How many random lists there are.
const LISTS: u32 = 1_000;

// All delays counted in halves.
fn doubled(list: List<'_>) -> [[u32; 4]; PAIRS] {
    let mut halves = [[0; 4]; PAIRS];
    for (half, p) in halves.iter_mut().zip(list.pairs) {
        let [launch, capture, least, greatest] = *p;
        *half = [
            launch,
            capture,
            least.saturating_mul(2),
            greatest.saturating_mul(2),
        ];
    }
    halves
}

// All needs counted in halves.
fn doubled_needs(list: List<'_>) -> [[u32; 2]; REGISTERS] {
    let mut halves = [[0; 2]; REGISTERS];
    for (half, x) in halves.iter_mut().zip(list.needs) {
        let [hold, setup] = *x;
        *half = [hold.saturating_mul(2), setup.saturating_mul(2)];
    }
    halves
}

// The least offset for which some split works at a period, both in halves.
fn least_offset(halves: List<'_>, period: u32) -> Option<u32> {
    (0..=MOST_OFFSET).find(|offset| halves.first_split(period, *offset).is_some())
}

// Whether no rival has a shorter period, nor at this one a smaller offset.
fn unbeaten(list: List<'_>, plan: Planned) -> bool {
    let pairs = doubled(list);
    let needs = doubled_needs(list);
    let halves = List {
        pairs: front(&pairs, list.pairs.len()),
        needs: front(&needs, list.needs.len()),
    };
    let shorter = (1..plan.two).any(|t| least_offset(halves, t.saturating_mul(2)).is_some());
    let least = least_offset(halves, plan.two.saturating_mul(2));
    !shorter && least == Some(plan.offset.saturating_mul(2))
}

// Whether the free timings are those of the free schedule, and the split's those of the first split.
fn shown(list: List<'_>, words: &[u32], plan: Planned, answer: &[u32]) -> bool {
    let n = list.needs.len();
    let mut freely = [0u32; REGISTERS];
    let freed = free_schedule::free(words, &mut freely);
    freed.is_ok_and(|periods| periods.free == plan.free)
        && same(answer, &freely, n)
        && list
            .first_split(plan.two, plan.offset)
            .is_some_and(|s| same(rest(answer, n), &s, n))
}

// Whether the plan of a list is right.
fn right(list: List<'_>, words: &[u32]) -> Fate {
    let mut answer = [DIRT; 14];
    let mut scratch = [DIRT; 64];
    let Ok(plan) = planner::plan(words, &mut answer, &mut scratch) else {
        return Fate::Wrong;
    };
    Fate::from(
        unbeaten(list, plan)
            && shown(list, words, plan, &answer)
            && kept(&answer, list.needs.len().saturating_mul(2))
            && cleared(&scratch, list.scratch()),
    )
}

// Random lists with delays up to nine, more with a hold, and needs up to `most`.
fn many(most: u32) -> Tally {
    many_lists::<REGISTERS, PAIRS, _>(11, LISTS, 9, most, right)
}

pub fn lists(rt: &impl Print) -> io::Result<()> {
    many(0).tell(
        rt,
        "plans of random lists against all splits and offsets in halves: ",
    )?;
    many(NEED).tell(rt, "the same with needs: ")
}
