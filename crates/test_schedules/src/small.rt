// Random small lists: the free schedule and the check of a schedule against plain ones.
use crate::plain;
use std::io;
use test_kit::lists::List;
use test_kit::places::front;
use test_kit::schedules::Schedules;
use test_kit::tally::{Fate, Tally, many_lists};

// The largest lists drawn: registers, pairs, delays before a hold, and needs.
const REGISTERS: usize = 3;

const PAIRS: usize = 4;

const DELAY: u32 = 5;

const NEED: u32 = 3;

// How many random lists there are.
const LISTS: u32 = 1_000;

// The latest timing of the schedules that the search for a free schedule goes through.
const LATEST: u32 = 10;

// The period at which schedules are checked, and the latest timing of these.
const PERIOD: u32 = 3;

const LATEST_CHECKED: u32 = 4;

// Whether the free period and schedule are what the search finds.
fn free_right(list: List<'_>, words: &[u32]) -> Fate {
    let mut answer = [9u32; REGISTERS];
    let Ok(periods) = free_schedule::free(words, &mut answer) else {
        return Fate::Wrong;
    };
    let free = periods.free;
    let shorter = (1..free).any(|t| plain::admitted(list, t, LATEST));
    if shorter || !list.admits(free, &answer) {
        return Fate::Wrong;
    }
    plain::earliest(list, free, LATEST, front(&answer, list.needs.len()))
}

// Whether the check says of each schedule what the plain rules say.
fn check_right(list: List<'_>, words: &[u32]) -> Fate {
    let n = list.needs.len();
    let right = Schedules::<REGISTERS>::new(list.registers(), LATEST_CHECKED).all(|s| {
        checker::check(words, PERIOD, front(&s, n)) == Ok(plain::checked(list, PERIOD, &s))
    });
    Fate::from(right)
}

fn tell(rt: &impl Print, label: &str, t: Tally) -> io::Result<()> {
    println!(rt;
        "{label}{} right, {} wrong, {} without a schedule",
        t.right, t.wrong, t.void
    )
}

// Random lists with needs up to `need`, and their free schedules.
fn free(need: u32) -> Tally {
    many_lists::<REGISTERS, PAIRS, _>(3, LISTS, DELAY, need, free_right)
}

pub fn free_schedules(rt: &impl Print) -> io::Result<()> {
    tell(
        rt,
        "free schedules of random lists against a search: ",
        free(0),
    )?;
    tell(rt, "the same with needs: ", free(NEED))
}

// The same lists, and checks of their schedules.
fn check(need: u32) -> Tally {
    many_lists::<REGISTERS, PAIRS, _>(3, LISTS, DELAY, need, check_right)
}

pub fn checks(rt: &impl Print) -> io::Result<()> {
    tell(
        rt,
        "checks of random lists and their margins against the rules: ",
        check(0),
    )?;
    tell(rt, "the same with needs: ", check(NEED))
}
