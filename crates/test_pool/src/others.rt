// Random lists, each with one of the same pairs that has other needs or another count of registers.
use crate::calls::{pools, refused};
use refusals::Refusal;
use std::io;
use test_kit::lists::{List, needless};
use test_kit::places::{front, zero};
use test_kit::random;
use test_kit::random::up_to;
use test_kit::tally::{Fate, Tally, Turn, many};

// The largest lists drawn: registers, pairs, delays before a hold, and needs.
const REGISTERS: usize = 4;

const PAIRS: usize = 6;

const DELAY: u32 = 9;

const NEED: u32 = 1;

// The places of the needs and of the words with one register more.
const NEEDS: usize = REGISTERS + 1;

const WORDS: usize = 25;

// How many random lists there are.
const LISTS: u32 = 1_000;

// How the other list differs: it has no needs, one setup is another, or it has a register more.
#[derive(Clone, Copy)]
enum Other {
    Needless,
    Setup,
    Register,
}

// Whether two lists are refused in either order, since they are not of one chip.
fn apart<'a>(first: &'a [u32], second: &'a [u32]) -> bool {
    refused(first, second, Refusal::Unlike) && refused(second, first, Refusal::Unlike)
}

// A list and one without needs. If it has none either, they are pooled, and it is void; else they are refused.
fn without(list: List<'_>) -> Fate {
    let mut a = [0u32; WORDS];
    let mut b = [0u32; WORDS];
    let words = list.write(&mut a);
    let other = needless(list.needs.len(), list.pairs).write(&mut b);
    if !zero(list.needs.as_flattened()) {
        return Fate::from(apart(words, other));
    }
    if pools(words, other, words) {
        Fate::Void
    } else {
        Fate::Wrong
    }
}

// A list and another one.
fn with(list: List<'_>, other: List<'_>) -> Fate {
    let mut a = [0u32; WORDS];
    let mut b = [0u32; WORDS];
    Fate::from(apart(list.write(&mut a), other.write(&mut b)))
}

// The needs where one of the first n setups is another: 0 for any other, and 1 for 0.
fn changed(needs: [[u32; 2]; NEEDS], seed: u64, n: u32) -> [[u32; 2]; NEEDS] {
    let mut next = needs;
    let register = up_to(seed, n.saturating_sub(1)) as usize;
    if let Some(x) = next.get_mut(register) {
        x[1] = if x[1] == 0 { 1 } else { 0 };
    }
    next
}

fn one(seed: u64, other: Other) -> Turn {
    let d = random::list::<NEEDS, PAIRS>(seed, REGISTERS as u32, DELAY, NEED);
    let list = d.list();
    Turn {
        seed: d.seed,
        fate: fate(list, d.needs, other, d.seed),
    }
}

fn fate(list: List<'_>, needs: [[u32; 2]; NEEDS], other: Other, seed: u64) -> Fate {
    let pairs = list.pairs;
    let n = list.needs.len();
    match other {
        Other::Needless => without(list),
        Other::Register => with(
            list,
            List {
                pairs,
                needs: front(&needs, n.saturating_add(1)),
            },
        ),
        Other::Setup => with(
            list,
            List {
                pairs,
                needs: front(&changed(needs, seed, list.registers()), n),
            },
        ),
    }
}

fn others(other: Other) -> Tally {
    many(37, LISTS, |seed| one(seed, other))
}

pub fn lists(rt: &impl Print) -> io::Result<()> {
    let t = others(Other::Needless);
    print!(rt; "needs in one list only: {} refused, ", t.right)?;
    println!(rt; "{} all 0 and pooled, {} wrong", t.void, t.wrong)?;
    others(Other::Setup).tell(rt, "one setup is another: ")?;
    others(Other::Register).tell(rt, "a register more: ")
}
