// Lists of 512 registers and 2,048 pairs in descending and in scattered order, without repeats and with them.
use list_format::Counts;
use std::io;
use test_kit::largest::{PAIRS, READ, REGISTERS, WORDS};
use test_kit::lists::{List, Pair};
use test_kit::places::{DIRT, front, kept};
use test_kit::{random, show};
use timing::{MAX_NEED, MAX_REGISTERS};

const ALL: u32 = PAIRS as u32;

// Every register launches four pairs, to registers so far apart.
const APART: u32 = 100;

// Prime to the count of pairs, so that steps of it come to each of them.
const STEP: u32 = 1_021;

// The greatest delay of a pair is so much more than its least.
const MORE: u32 = 1_000;

// Which pair comes k-th.
fn turn(k: u32, scattered: bool) -> u32 {
    if scattered {
        return k % ALL * STEP % ALL;
    }
    ALL - 1 - k % ALL
}

// The pair with a key, with the least delay of pair `first` and the greatest of pair `last`. No hold is above a delay.
fn pair(key: u32, first: u32, last: u32) -> Pair {
    let least = first % ALL + MAX_NEED;
    let greatest = last % ALL + MAX_NEED + MORE;
    [key / 4, key % 4 * APART, least, greatest]
}

// All pairs as they come, each with as many copies that differ in their delays.
fn given(scattered: bool, copies: u32) -> [Pair; PAIRS] {
    let mut pairs = [[0; 4]; PAIRS];
    for (k, p) in (0..ALL).zip(pairs.iter_mut()) {
        let j = turn(k, scattered);
        *p = pair(j / copies.max(1), j, j);
    }
    pairs
}

// The pairs of the converted list, each joined with its copies; as many as there are keys count.
fn joined(copies: u32) -> [Pair; PAIRS] {
    let mut pairs = [[0; 4]; PAIRS];
    for (key, p) in (0..ALL).zip(pairs.iter_mut()) {
        let first = key.saturating_mul(copies);
        *p = pair(key, first, first.saturating_add(copies).saturating_sub(1));
    }
    pairs
}

// Reads a converted list, and tells whether it has these needs and the joined pairs.
fn tell(rt: &impl Print, words: &[u32], needs: &[[u32; 2]], copies: u32) -> io::Result<()> {
    let mut back = [DIRT; READ];
    let pairs = joined(copies);
    let m = ALL / copies.max(1);
    let list = List {
        pairs: front(&pairs, m as usize),
        needs,
    };
    match read_list::read(words, &mut back) {
        Err(refused) => show::refusal(rt, refused),
        Ok(counts) => {
            let asked = Counts {
                registers: MAX_REGISTERS,
                pairs: m,
            };
            let right = counts == asked && list.is_read_into(&back);
            println!(rt;
                "{} pairs, {}",
                counts.pairs,
                if right { "right" } else { "wrong" }
            )
        }
    }
}

// Converts a list, and tells of every place of the buffer.
fn converted(rt: &impl Print, words: &[u32], needs: &[[u32; 2]], copies: u32) -> io::Result<()> {
    let mut answer = [DIRT; WORDS];
    match converter::convert(words, &mut answer) {
        Err(refused) => show::refusal(rt, refused),
        Ok(count) => {
            let behind = if kept(&answer, count) {
                "kept"
            } else {
                "changed"
            };
            print!(rt; "{count} words, later places {behind}, ")?;
            tell(rt, front(&answer, count), needs, copies)
        }
    }
}

// All pairs with needs up to `need`.
fn list(rt: &impl Print, label: &str, scattered: bool, copies: u32, need: u32) -> io::Result<()> {
    let mut needs = [[0u32; 2]; REGISTERS];
    let mut words = [0u32; WORDS];
    random::needs(31, need, &mut needs);
    let stored = List {
        pairs: &given(scattered, copies),
        needs: &needs,
    };
    rt.print(label)?;
    converted(rt, stored.store(&mut words), &needs, copies)
}

pub fn lists(rt: &impl Print) -> io::Result<()> {
    list(
        rt,
        "512 registers, 2048 pairs in descending order: ",
        false,
        1,
        0,
    )?;
    list(rt, "the same with needs: ", false, 1, MAX_NEED)?;
    list(rt, "in scattered order: ", true, 1, 0)?;
    list(rt, "the same with needs: ", true, 1, MAX_NEED)?;
    list(rt, "two of each pair: ", true, 2, 0)?;
    list(rt, "the same with needs: ", true, 2, MAX_NEED)?;
    list(rt, "all of one pair: ", true, ALL, 0)?;
    list(rt, "the same with needs: ", false, ALL, MAX_NEED)
}
