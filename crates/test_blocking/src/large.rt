// Lists of 512 registers: a path along which one register after the other is forced late, so that the chains are long; and random lists
// of the most pairs at the two-timing period and one less.
use crate::chains;
use blocking::Blocked;
use refusals::Refused;
use std::io;
use test_kit::largest::{ANSWER, REGISTERS, SCRATCH, WORDS};
use test_kit::lists::{FREE, List, Pair};
use test_kit::places::DIRT;
use test_kit::tally::Fate;
use test_kit::{random, show};

// The links of the path, which leaves out register 0.
const LINKS: usize = REGISTERS - 2;

// The two pairs after them, which are slower than the period.
const SLOW: usize = LINKS + 2;

// The places of an answer, four for each register.
const PLACES: usize = 4 * REGISTERS;

// The common period is one more than the period.
const PERIOD: u32 = 8;

// A link between register r and the next: a late launch forces a late capture by setup, or a late capture a late launch by hold.
// Along the list the next is forced, against it register r.
fn link(r: u32, by_hold: bool, against: bool) -> Pair {
    let next = r.saturating_add(1);
    let (launch, capture) = if by_hold == against {
        (r, next)
    } else {
        (next, r)
    };
    if by_hold {
        return [launch, capture, 0, PERIOD - 1];
    }
    [launch, capture, PERIOD, PERIOD]
}

// The links of a path from register 1 to the last, or the other way; then two pairs from where it ends: to register 0, which is left,
// and to where the path starts.
fn path(by_hold: bool, against: bool) -> [Pair; SLOW] {
    let last = timing::MAX_REGISTERS - 1;
    let (start, end) = if against { (last, 1) } else { (1, last) };
    let mut pairs = [[0; 4]; SLOW];
    for (r, p) in (1..last).zip(pairs.iter_mut()) {
        *p = link(r, by_hold, against);
    }
    pairs[LINKS] = [end, 0, PERIOD, PERIOD + 1];
    pairs[LINKS + 1] = [end, start, PERIOD, PERIOD + 1];
    pairs.sort_unstable();
    pairs
}

// How a call fared, with the lengths of its chains.
fn tell(rt: &impl Print, fate: Fate, said: Result<Option<Blocked>, Refused>) -> io::Result<()> {
    if fate == Fate::Wrong {
        return rt.println("wrong");
    }
    match said {
        Err(refused) => show::refusal(rt, refused),
        Ok(None) => rt.println("workable"),
        Ok(Some(b)) => println!(rt; "blocked by {} and {} steps", b.first, b.second),
    }
}

// A list of 512 registers at a period, and whether some split works at it.
fn tried(
    rt: &impl Print,
    list: List<'_>,
    words: &[u32],
    period: u32,
    works: bool,
) -> io::Result<()> {
    let mut answer = [DIRT; PLACES + 1];
    let mut scratch = [DIRT; SCRATCH + 1];
    let said = blocking::why_not(words, period, &mut answer, &mut scratch);
    let fate = chains::fate(works, said, list, period, &answer, &scratch);
    tell(rt, fate, said)
}

fn try_path(rt: &impl Print, label: &str, by_hold: bool, against: bool) -> io::Result<()> {
    let mut words = [0u32; 3 * SLOW + 2];
    let list = List {
        pairs: &path(by_hold, against),
        needs: &FREE,
    };
    rt.print(label)?;
    tried(rt, list, list.write(&mut words), PERIOD, false)
}

// A random list with needs, at its two-timing period and at one less.
fn try_random(rt: &impl Print, label: &str, seed: u64, most: u32, need: u32) -> io::Result<()> {
    let mut words = [0u32; WORDS];
    let d = random::largest(seed, most, need);
    let list = d.list();
    let given = list.write(&mut words);
    let two = planned(given);
    rt.print(label)?;
    tried(rt, list, given, two, true)?;
    rt.print("one less: ")?;
    tried(rt, list, given, two.wrapping_sub(1), false)
}

// The two-timing period, 0 if the list is refused.
fn planned(words: &[u32]) -> u32 {
    let mut answer = [0u32; ANSWER];
    let mut scratch = [0u32; SCRATCH];
    planner::plan(words, &mut answer, &mut scratch).map_or(0, |p| p.two)
}

pub fn lists(rt: &impl Print) -> io::Result<()> {
    try_path(rt, "a path of 512: ", false, false)?;
    try_path(rt, "the same against the list: ", false, true)?;
    try_path(rt, "the same by hold: ", true, false)?;
    try_path(rt, "by hold, against the list: ", true, true)?;
    try_random(
        rt,
        "512 registers, 2048 pairs, at the two-timing period: ",
        17,
        1_000,
        0,
    )?;
    try_random(rt, "delays to 1000000: ", 19, timing::MAX_DELAY, 0)?;
    try_random(rt, "needs to 100: ", 17, 1_000, 100)
}
