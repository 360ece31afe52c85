// Random lists of one chip against a plain merge, and the pairs of one list dealt to two.
use crate::calls::{ROOM, fits, pools, short};
use crate::drawn::{DEALT, Deal, Lists, deal_out, many_pools};
use std::io;
use test_kit::lists::{List, Pair, needy};
use test_kit::random;
use test_kit::tally::{Fate, Tally, Turn, many};
use test_pairs::joining::joined;
use timing::MAX_NEED;

// The largest lists drawn: registers, the pairs of both, and the places of the words of one.
const REGISTERS: usize = 8;

const PAIRS: usize = 2 * DEALT;

const WORDS: usize = 46;

// The delays are drawn up to this, and a hold comes on top.
const DELAY: u32 = timing::MAX_DELAY - MAX_NEED;

// How many random lists there are.
const LISTS: u32 = 2_000;

// Whether two lists are pooled as expected, in either order, with just enough room and with too little.
fn both_ways<'a>(first: &'a [u32], second: &'a [u32], expected: &[u32]) -> bool {
    pools(first, second, expected)
        && pools(second, first, expected)
        && fits(first, second, expected)
        && short(first, second, expected.len())
}

// Whether a list pooled with itself, and with one without pairs, is the list.
fn alone<'a>(list: &'a [u32], empty: &'a [u32]) -> bool {
    pools(list, list, list) && both_ways(list, empty, list)
}

// Whether two lists are pooled as the plain merge says.
fn right(d: Lists<'_>) -> Turn {
    let mut a = [0u32; WORDS];
    let mut b = [0u32; WORDS];
    let mut c = [0u32; WORDS];
    let mut buffer = [0u32; ROOM];
    let first = d.first.write(&mut a);
    let second = d.second.write(&mut b);
    let both = d.both;
    let pairs = joined(both.pairs);
    let empty = needy(&[], both.needs).write(&mut c);
    let expected = needy(pairs.all(), both.needs).write(&mut buffer);
    Turn {
        seed: d.seed,
        fate: Fate::from(both_ways(first, second, expected) && alone(first, empty)),
    }
}

fn merged(delay: u32, need: u32) -> Tally {
    many_pools::<REGISTERS, PAIRS, _>(LISTS, delay, need, right)
}

// A random list whose pairs are dealt to two, of which it is the pooled list.
fn turn(seed: u64, deal: Deal, need: u32) -> Turn {
    let whole = random::list::<REGISTERS, DEALT>(seed, REGISTERS as u32, DELAY, need);
    let list = whole.list();
    let d = deal_out(whole.seed, list.pairs, deal);
    Turn {
        seed: d.seed,
        fate: Fate::from(dealt_right(d.first.all(), d.second.all(), list)),
    }
}

fn dealt_right(first: &[Pair], second: &[Pair], pooled: List<'_>) -> bool {
    let mut a = [0u32; WORDS];
    let mut b = [0u32; WORDS];
    let mut buffer = [0u32; ROOM];
    let one = needy(first, pooled.needs).write(&mut a);
    let other = needy(second, pooled.needs).write(&mut b);
    both_ways(one, other, pooled.write(&mut buffer))
}

fn dealt(deal: Deal, need: u32) -> Tally {
    many(37, LISTS, |seed| turn(seed, deal, need))
}

pub fn lists(rt: &impl Print) -> io::Result<()> {
    merged(DELAY, 0).tell(rt, "random lists against a plain merge: ")?;
    merged(DELAY, MAX_NEED).tell(rt, "the same with needs: ")?;
    merged(3, 2).tell(rt, "delays to 5, needs to 2: ")?;
    dealt(Deal::Apart, 0).tell(rt, "lists without a pair in both: ")?;
    dealt(Deal::Apart, MAX_NEED).tell(rt, "the same with needs: ")?;
    dealt(Deal::Mixed, MAX_NEED).tell(rt, "lists with some pairs in both: ")?;
    dealt(Deal::Both, MAX_NEED).tell(rt, "lists of the same pairs: ")
}
