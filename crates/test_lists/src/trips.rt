// Write then read, and read then write, on random lists; then lists with damaged words.
use list_format::Counts;
use std::io;
use test_kit::lists::List;
use test_kit::places::{DIRT, front, kept, rest};
use test_kit::tally::{Fate, Turn, many};
use test_kit::{largest, random};

// The largest lists drawn: registers and pairs.
const REGISTERS: usize = 8;

const PAIRS: usize = 6;

// Places enough for their numbers, and for their words.
const SMALL: usize = 40;

// The delays are drawn up to this, and a hold comes on top.
const DELAY: u32 = timing::MAX_DELAY - timing::MAX_NEED;

// How many random lists there are.
const LISTS: u32 = 2_000;

// Writes a list and reads it back: the same, and later places kept. The answer is the count of words, none if anything is wrong.
fn there_and_back(list: List<'_>, words: &mut [u32], back: &mut [u32]) -> Option<usize> {
    words.fill(DIRT);
    back.fill(DIRT);
    let n = list.registers();
    let count = list.write_to(words).ok()?;
    let counts = read_list::read(front(words, count), back).ok()?;
    let right = counts.registers == n
        && counts.pairs as usize == list.pairs.len()
        && list.is_read_into(back)
        && kept(words, count);
    right.then_some(count)
}

// Reads a list and writes what was read, which is to be the same words. It is void if the list is refused.
fn back_and_there(words: &[u32], back: &mut [u32], again: &mut [u32]) -> Fate {
    let Ok(Counts { registers, pairs }) = read_list::read(words, back) else {
        return Fate::Void;
    };
    let many = 4 * pairs as usize;
    let needs = front(rest(back, many), 2 * registers as usize);
    let written = write_list::write(registers, front(back, many), needs, again);
    Fate::from(written.is_ok_and(|count| words == front(again, count)))
}

// A list is left alone, one word of it is changed, or two are and its sum is kept.
#[derive(Clone, Copy, PartialEq, Eq)]
pub enum Damage {
    None,
    One,
    Two,
}

impl Damage {
    // What is added to one word: anything, or a little.
    fn up(self, seed: u64) -> u32 {
        let by = 1 + random::up_to(random::next(seed), 0xFFFF_FFFE);
        match self {
            Damage::None => 0,
            Damage::One => by,
            Damage::Two => by % 8,
        }
    }

    // What is added to another word, after one got this: as much as brings the sum back.
    fn down(self, by: u32) -> u32 {
        if self == Damage::Two {
            by.wrapping_neg()
        } else {
            0
        }
    }

    fn bring(self, seed: u64, words: &mut [u32]) {
        let by = self.up(seed);
        change(words, seed, by);
        change(words, random::next(seed), self.down(by));
    }
}

// Adds `by` to one of the words, wrapping.
fn change(words: &mut [u32], seed: u64, by: u32) {
    if words.is_empty() {
        return;
    }
    let at = (seed % (words.len() as u64)) as usize;
    words[at] = words[at].wrapping_add(by);
}

// A random list with needs up to `most`, there and back, then damaged and read again.
fn one(damage: Damage, most: u32, seed: u64) -> Turn {
    let d = random::list::<REGISTERS, PAIRS>(seed, REGISTERS as u32, DELAY, most);
    Turn {
        seed: d.seed,
        fate: fate(damage, seed, d.list()),
    }
}

fn fate(damage: Damage, seed: u64, list: List<'_>) -> Fate {
    let mut words = [0u32; SMALL];
    let mut back = [0u32; SMALL];
    let Some(count) = there_and_back(list, &mut words, &mut back) else {
        return Fate::Wrong;
    };
    if let Some(all) = words.get_mut(..count) {
        damage.bring(seed, all);
    }
    let mut again = [0u32; SMALL];
    back_and_there(front(&words, count), &mut back, &mut again)
}

// Random lists with needs up to `most`, and how they fared.
pub fn small(rt: &impl Print, label: &str, damage: Damage, most: u32) -> io::Result<()> {
    let t = many(1, LISTS, |seed| one(damage, most, seed));
    println!(rt;
        "{label}{} refused, {} the same when written again, {} wrong",
        t.void, t.right, t.wrong
    )
}

// A list of the largest size with needs up to `most` there and back, and then with one place too few.
pub fn largest(rt: &impl Print, label: &str, most: u32) -> io::Result<()> {
    let mut pairs = [[0u32; 4]; largest::PAIRS];
    let mut needs = [[0u32; 2]; largest::REGISTERS];
    let mut words = [0u32; largest::WORDS];
    let mut back = [0u32; largest::READ];
    let drawn = random::needs(7, most, &mut needs);
    random::pairs(drawn, timing::MAX_REGISTERS, DELAY, &needs, &mut pairs);
    let list = List {
        pairs: &pairs,
        needs: &needs,
    };
    let count = there_and_back(list, &mut words, &mut back).unwrap_or(0);
    print!(rt; "{label}{count}; written in one place less: ")?;
    too_short(rt, list, most == 0)?;
    too_short_read(rt, front(&words, count))
}

// The writer with one place less than it asks for.
fn too_short(rt: &impl Print, list: List<'_>, needless: bool) -> io::Result<()> {
    let mut words = [0u32; largest::WORDS - 1];
    if needless {
        return written(rt, list, &mut words[..largest::PLAIN_WORDS - 1]);
    }
    written(rt, list, &mut words)
}

fn written(rt: &impl Print, list: List<'_>, words: &mut [u32]) -> io::Result<()> {
    crate::show::writing(rt, list.write_to(words))
}

// The reader with one place less.
fn too_short_read(rt: &impl Print, words: &[u32]) -> io::Result<()> {
    let mut back = [0u32; largest::READ - 1];
    rt.print("read in one place less: ")?;
    crate::show::reading(rt, read_list::read(words, &mut back))
}
