// Small lists at every period up to one more than the common one, against a plain search over all splits and all offsets up to the
// common period.
ghost use Rattle.std.specs.Prelude.{◌≤◌};

use crate::chains;
use std::io;
use test_kit::lists::{List, Pair, Pairs, needless};
use test_kit::places::DIRT;
use test_kit::random;
use test_kit::tally::{Fate, Tally};

// Delays up to three: the least and the greatest of each kind of pair.
const DELAYS: [[u32; 2]; 10] = [
    [0, 0],
    [0, 1],
    [1, 1],
    [0, 2],
    [1, 2],
    [2, 2],
    [0, 3],
    [1, 3],
    [2, 3],
    [3, 3],
];

// No pair, or one of these delays.
const CHOICES: u32 = 11;

// How many random lists there are.
const LISTS: u32 = 500;

// The largest need of the lists with needs.
const NEED: u32 = 3;

// How a call fares at one period, where offsets up to `most` are tried for a split. There are more places than are asked for.
fn tried(list: List<'_>, words: &[u32], period: u32, most: u32) -> Fate {
    let mut answer = [DIRT; 22];
    let mut scratch = [DIRT; 70];
    let works = (0..=most)
        .rev()
        .any(|offset| list.first_split(period, offset).is_some());
    let said = blocking::why_not(words, period, &mut answer, &mut scratch);
    chains::fate(works, said, list, period, &answer, &scratch)
}

// Every period of a list.
fn periods(list: List<'_>, before: Tally) -> Tally {
    let mut words = [0u32; 31];
    let given = list.write(&mut words);
    let most = chains::common(list);
    let mut tally = before;
    for period in (1..=most.saturating_add(1)).rev() {
        tally = tally.with(tried(list, given, period, most));
    }
    tally
}

// The pair of n registers with a key by a choice: none, or its delays.
fn pair(choice: u32, key: u32, n: u32) -> Option<Pair>
    requires { 1 ≤ n }
{
    let kind = choice.checked_sub(1)?;
    let [least, greatest] = *DELAYS.get(kind as usize)?;
    Some([key / n, key % n, least, greatest])
}

// The pairs of list v of n registers, by its digits in base eleven: one for each key.
fn chosen(n: u32, v: u32) -> Pairs<4>
    requires { 1 ≤ n }
{
    let mut digits = v;
    let mut pairs = Pairs::none();
    for key in 0..n.saturating_mul(n) {
        if let Some(p) = pair(digits % CHOICES, key, n) {
            pairs.push(p);
        }
        digits /= CHOICES;
    }
    pairs
}

// All lists of n registers, of which there are so many.
fn every(n: u32, lists: u32) -> Tally
    requires { 1 ≤ n }
{
    let mut tally = Tally::none();
    for v in 0..lists {
        let pairs = chosen(n, v);
        tally = periods(needless(n as usize, pairs.all()), tally);
    }
    tally
}

// Random lists of up to five registers and eight pairs with delays up to nine, more with a hold, and needs up to `most`.
fn many(most: u32) -> Tally {
    let mut tally = Tally::none();
    let mut seed: u64 = 23;
    for _ in 0..LISTS {
        let d = random::list::<5, 8>(seed, 5, 9, most);
        tally = periods(d.list(), tally);
        seed = d.seed;
    }
    tally
}

fn tell(rt: &impl Print, label: &str, t: Tally) -> io::Result<()> {
    println!(rt;
        "{label}{} workable, {} blocked, {} wrong",
        t.void, t.right, t.wrong
    )
}

pub fn lists(rt: &impl Print) -> io::Result<()> {
    tell(
        rt,
        "every list of one register, delays to 3, at every period: ",
        every(1, CHOICES),
    )?;
    tell(
        rt,
        "every list of two registers, delays to 3, at every period: ",
        every(2, CHOICES * CHOICES * CHOICES * CHOICES),
    )?;
    tell(rt, "random lists at every period: ", many(0))?;
    tell(rt, "the same with needs: ", many(NEED))
}
