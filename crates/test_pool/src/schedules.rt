// Random small lists: a schedule is admissible for the pooled list exactly if it is for each of the two.
use crate::drawn::{Lists, many_pools};
use checker::Checking;
use std::io;
use test_kit::places::front;
use test_kit::random::{next, up_to};
use test_kit::schedules::Schedules;
use test_kit::tally::{Fate, Turn};

// The largest lists drawn: registers, the pairs of both, delays before a hold, and needs.
const REGISTERS: usize = 4;

const PAIRS: usize = 8;

const DELAY: u32 = 5;

const NEED: u32 = 2;

// The periods are those from the first to the first and so many more; no timing is later than the latest.
const PERIOD: u32 = 4;

const PERIODS: u32 = 5;

const LATEST: u32 = 3;

// How many random lists there are.
const LISTS: u32 = 1_000;

// Whether a schedule is admissible, if it can be checked.
fn admits(words: &[u32], period: u32, s: &[u32]) -> Option<bool> {
    match checker::check(words, period, s) {
        Ok(Checking::NoPairs | Checking::Admissible(_)) => Some(true),
        Ok(Checking::Broken(_, _, _)) => Some(false),
        Err(_) => None,
    }
}

// The same of both lists.
fn both_admit(first: &[u32], second: &[u32], period: u32, s: &[u32]) -> Option<bool> {
    if admits(first, period, s)? {
        admits(second, period, s)
    } else {
        Some(false)
    }
}

// All schedules of n registers at a period: right if they are admissible for the pooled list as for both, and some are; void if none is.
fn fate(first: &[u32], second: &[u32], pooled: &[u32], n: u32, period: u32) -> Fate {
    let mut found = Fate::Void;
    for s in Schedules::<REGISTERS>::new(n, LATEST) {
        let timings = front(&s, n as usize);
        let said = admits(pooled, period, timings);
        if said.is_none() || said != both_admit(first, second, period, timings) {
            return Fate::Wrong;
        }
        if said == Some(true) {
            found = Fate::Right;
        }
    }
    found
}

fn turn(d: Lists<'_>) -> Turn {
    let mut a = [0u32; 18];
    let mut b = [0u32; 18];
    let mut answer = [0u32; 30];
    let first = d.first.write(&mut a);
    let second = d.second.write(&mut b);
    let period = PERIOD + up_to(d.seed, PERIODS);
    let n = d.both.registers();
    let fate = match pooling::pool(first, second, &mut answer) {
        Err(_) => Fate::Wrong,
        Ok(count) => fate(first, second, front(&answer, count), n, period),
    };
    Turn {
        seed: next(d.seed),
        fate,
    }
}

fn tell(rt: &impl Print, label: &str, need: u32) -> io::Result<()> {
    let t = many_pools::<REGISTERS, PAIRS, _>(LISTS, DELAY, need, turn);
    print!(rt;
        "{label}{} with schedules that are admissible for both, ",
        t.right
    )?;
    println!(rt; "{} with none, {} wrong", t.void, t.wrong)
}

pub fn lists(rt: &impl Print) -> io::Result<()> {
    tell(rt, "schedules: ", 0)?;
    tell(rt, "the same with needs: ", NEED)
}
