// Random small lists: the plan of the pooled list against searches over the pairs of both.
use crate::drawn::{Lists, many_pools};
use std::io;
use test_kit::places::{DIRT, front};
use test_kit::tally::{Fate, Tally, Turn};
use test_pairs::searches::plan_right;

// The largest lists drawn: registers, the pairs of both, delays before a hold, and needs.
const REGISTERS: usize = 4;

const PAIRS: usize = 8;

const DELAY: u32 = 3;

const NEED: u32 = 1;

// How many random lists there are.
const LISTS: u32 = 1_000;

// Whether the pooled list has the plan of the pairs of both.
fn right(d: Lists<'_>) -> bool {
    let mut a = [0u32; 18];
    let mut b = [0u32; 18];
    let mut answer = [DIRT; 30];
    let pooled = pooling::pool(d.first.write(&mut a), d.second.write(&mut b), &mut answer);
    pooled.is_ok_and(|count| plan_right(d.both, front(&answer, count)))
}

fn turn(d: Lists<'_>) -> Turn {
    Turn {
        seed: d.seed,
        fate: Fate::from(right(d)),
    }
}

fn plans(need: u32) -> Tally {
    many_pools::<REGISTERS, PAIRS, _>(LISTS, DELAY, need, turn)
}

pub fn lists(rt: &impl Print) -> io::Result<()> {
    plans(0).tell(
        rt,
        "plans of pooled lists against searches over the pairs of both: ",
    )?;
    plans(NEED).tell(rt, "the same with needs: ")
}
