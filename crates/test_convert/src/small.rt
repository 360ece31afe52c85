// Random stored lists against the plain conversion.
use crate::drawn::many_stored;
use std::io;
use test_kit::lists::List;
use test_kit::places::{DIRT, holds};
use test_kit::tally::{Fate, Tally};
use test_pairs::joining::joined;
use timing::{MAX_DELAY, MAX_NEED};

// The largest lists drawn: registers, pairs, and places of their words.
const REGISTERS: usize = 8;

const PAIRS: usize = 24;

const WORDS: usize = 82;

// The delays are drawn up to this, and a hold comes on top.
const DELAY: u32 = MAX_DELAY - MAX_NEED;

// How many random lists there are.
const LISTS: u32 = 2_000;

// Whether a list converted fills a buffer, which is of two places more than the longest list and was dirty, as it should.
fn converts(words: &[u32], expected: &[u32]) -> bool {
    let mut answer = [DIRT; WORDS + 2];
    converter::convert(words, &mut answer) == Ok(expected.len()) && holds(&answer, expected)
}

// Whether a list in words converts to the plain conversion, and that to itself.
fn right(list: List<'_>, words: &[u32]) -> Fate {
    let mut buffer = [DIRT; WORDS];
    let pairs = joined(list.pairs);
    let ordered = List {
        pairs: pairs.all(),
        needs: list.needs,
    };
    let expected = ordered.write(&mut buffer);
    Fate::from(converts(words, expected) && converts(expected, expected))
}

fn many(delay: u32, need: u32) -> Tally {
    many_stored::<REGISTERS, PAIRS, _>(23, LISTS, delay, need, right)
}

pub fn lists(rt: &impl Print) -> io::Result<()> {
    many(DELAY, 0).tell(rt, "random stored lists against a plain conversion: ")?;
    many(DELAY, MAX_NEED).tell(rt, "the same with needs: ")?;
    many(3, 2).tell(rt, "delays to 5, needs to 2: ")
}
