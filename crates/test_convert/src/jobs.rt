// Random small lists: the plan and the splits of a converted list against searches over the pairs as they were stored.
use crate::drawn::many_stored;
use std::io;
use test_kit::lists::List;
use test_kit::places::{DIRT, front};
use test_kit::tally::{Fate, Tally};
use test_pairs::searches::{TRIALS, plan_right, trial};

// The largest lists drawn: registers, pairs, delays before a hold, and needs.
const REGISTERS: usize = 4;

const PAIRS: usize = 8;

const DELAY: u32 = 3;

const NEED: u32 = 1;

// How many random lists there are.
const LISTS: u32 = 1_000;

// Whether the split of a converted list at a trial is that of the pairs.
fn split_right(list: List<'_>, words: &[u32], place: u32) -> bool {
    let mut answer = [DIRT; 6];
    let mut scratch = [DIRT; 60];
    let (period, offset) = trial(place);
    let said = split::split(words, period, offset, &mut answer, &mut scratch);
    list.is_first_split(period, offset, said, &answer)
}

fn splits_right(list: List<'_>, words: &[u32]) -> bool {
    (0..TRIALS).all(|place| split_right(list, words, place))
}

// Whether the conversion of a list has the plan and the splits of its pairs as they come.
fn right(list: List<'_>, words: &[u32]) -> Fate {
    let mut answer = [DIRT; 30];
    let Ok(count) = converter::convert(words, &mut answer) else {
        return Fate::Wrong;
    };
    let converted = front(&answer, count);
    Fate::from(plan_right(list, converted) && splits_right(list, converted))
}

fn many(need: u32) -> Tally {
    many_stored::<REGISTERS, PAIRS, _>(29, LISTS, DELAY, need, right)
}

pub fn lists(rt: &impl Print) -> io::Result<()> {
    many(0).tell(
        rt,
        "plans and splits of converted lists against searches over the stored pairs: ",
    )?;
    many(NEED).tell(rt, "the same with needs: ")
}
