// Lists of 512 registers: 2,048 pooled pairs of two lists in any way, and one pair too many.
use crate::calls::pool_in;
use crate::show;
use list_format::Counts;
use std::io;
use test_kit::largest::{PAIRS, PLAIN_WORDS, READ, REGISTERS, WORDS};
use test_kit::lists::{List, Needs, Pair, needy};
use test_kit::places::{DIRT, front, kept};
use test_kit::random;
use timing::{MAX_NEED, MAX_REGISTERS};

const ALL: u32 = PAIRS as u32;

// A pair is told by its key: every register launches five, to registers so far apart. There are keys for more than two thousand pairs.
const LAUNCHED: u32 = 5;

const APART: u32 = 100;

const MOST_KEYS: u32 = 2_560;

// The keys of a list: so many, from one on, each or every second by the step.
#[derive(Clone, Copy)]
struct Keys {
    from: u32,
    step: u32,
    count: u32,
}

// Every key; every second one; the first half and the second; none.
const FULL: Keys = Keys {
    from: 0,
    step: 1,
    count: ALL,
};

const EVEN: Keys = Keys {
    from: 0,
    step: 2,
    count: ALL / 2,
};

const ODD: Keys = Keys {
    from: 1,
    step: 2,
    count: ALL / 2,
};

const LOWER: Keys = Keys {
    from: 0,
    step: 1,
    count: ALL / 2,
};

const UPPER: Keys = Keys {
    from: ALL / 2,
    step: 1,
    count: ALL / 2,
};

const NONE: Keys = Keys {
    from: 0,
    step: 1,
    count: 0,
};

// One key after all of these; and one that is even.
const NEXT: Keys = Keys {
    from: ALL,
    step: 1,
    count: 1,
};

const MORE_EVEN: Keys = Keys {
    from: 0,
    step: 2,
    count: ALL / 2 + 1,
};

impl Keys {
    // Which key comes k-th.
    fn key(self, k: u32) -> u32 {
        self.from.saturating_add(k.saturating_mul(self.step))
    }

    fn has(self, key: u32) -> bool {
        match key.checked_sub(self.from) {
            None => false,
            Some(past) => {
                let step = self.step.max(1);
                past % step == 0 && past / step < self.count
            }
        }
    }
}

// The delays of the pair with a key in the first or the second list: of most pairs they differ, and no hold is above them.
fn delays(key: u32, second: bool) -> [u32; 2] {
    let j = key % MOST_KEYS;
    let (less, more) = if second {
        (11 * j, 13 * j)
    } else {
        (7 * j, 3 * j)
    };
    let least = MAX_NEED + less % 1_000;
    [least, least + more % 1_000]
}

fn pair(key: u32, delays: [u32; 2]) -> Pair {
    let [least, greatest] = delays;
    [key / LAUNCHED, key % LAUNCHED * APART, least, greatest]
}

// The pairs of a list.
fn given(list: Keys, second: bool) -> [Pair; PAIRS] {
    let mut pairs = [[0; 4]; PAIRS];
    for (k, p) in (0..list.count).zip(pairs.iter_mut()) {
        let key = list.key(k);
        *p = pair(key, delays(key, second));
    }
    pairs
}

// The words of a list with such needs.
fn write<'a>(list: Keys, second: bool, needs: &[Needs], words: &'a mut [u32]) -> &'a [u32] {
    let pairs = given(list, second);
    needy(front(&pairs, list.count as usize), needs).write(words)
}

// What the lists have for a key, joined if both have it.
fn joined(first: Keys, second: Keys, key: u32) -> Pair {
    let one = delays(key, false);
    let other = delays(key, true);
    if !second.has(key) {
        return pair(key, one);
    }
    if !first.has(key) {
        return pair(key, other);
    }
    pair(key, [one[0].min(other[0]), one[1].max(other[1])])
}

// The pairs of the pooled list, which has all keys.
fn all_joined(first: Keys, second: Keys) -> [Pair; PAIRS] {
    let mut pairs = [[0; 4]; PAIRS];
    for (key, p) in (0..ALL).zip(pairs.iter_mut()) {
        *p = joined(first, second, key);
    }
    pairs
}

// Reads a pooled list, and tells whether it is this one.
fn read(rt: &impl Print, words: &[u32], expected: List<'_>) -> io::Result<()> {
    let mut back = [DIRT; READ];
    match read_list::read(words, &mut back) {
        Err(refused) => test_kit::show::refusal(rt, refused),
        Ok(counts) => {
            let asked = Counts {
                registers: MAX_REGISTERS,
                pairs: ALL,
            };
            let right = counts == asked && expected.is_read_into(&back);
            println!(rt;
                "{} pairs, {}",
                counts.pairs,
                if right { "right" } else { "wrong" }
            )
        }
    }
}

fn name_kept(buffer: &[u32], from: usize) -> &'static str {
    if kept(buffer, from) {
        "kept"
    } else {
        "changed"
    }
}

// Pools two lists, and tells of every place of a buffer that is a place longer than the longest list.
fn pooled<'a>(rt: &impl Print, a: &'a [u32], b: &'a [u32], expected: List<'_>) -> io::Result<()> {
    let mut answer = [DIRT; WORDS + 1];
    match pooling::pool(a, b, &mut answer) {
        Err(refused) => show::refusal(rt, refused),
        Ok(count) => {
            let behind = name_kept(&answer, count);
            print!(rt; "{count} words, later places {behind}, ")?;
            read(rt, front(&answer, count), expected)
        }
    }
}

// Two lists with needs up to `need`.
fn list(rt: &impl Print, label: &str, first: Keys, second: Keys, need: u32) -> io::Result<()> {
    let mut needs = [[0u32; 2]; REGISTERS];
    let mut a = [0u32; WORDS];
    let mut b = [0u32; WORDS];
    random::needs(53, need, &mut needs);
    let pairs = all_joined(first, second);
    let one = write(first, false, &needs, &mut a);
    let other = write(second, true, &needs, &mut b);
    rt.print(label)?;
    pooled(rt, one, other, needy(&pairs, &needs))
}

fn with_needs(rt: &impl Print, label: &str, first: Keys, second: Keys) -> io::Result<()> {
    list(rt, label, first, second, 0)?;
    list(rt, "the same with needs: ", first, second, MAX_NEED)
}

pub fn lists(rt: &impl Print) -> io::Result<()> {
    with_needs(rt, "512 registers, 1024 pairs each, in turn: ", EVEN, ODD)?;
    with_needs(rt, "the lower pairs in the first list: ", LOWER, UPPER)?;
    with_needs(rt, "the lower pairs in the second list: ", UPPER, LOWER)?;
    with_needs(rt, "2048 pairs each, all in both: ", FULL, FULL)?;
    with_needs(rt, "2048 pairs with every second: ", FULL, EVEN)?;
    with_needs(rt, "2048 pairs with none: ", FULL, NONE)?;
    with_needs(rt, "none with 2048 pairs: ", NONE, FULL)
}

// Needs of the first and of the second list up to these, and so many places.
#[derive(Clone, Copy)]
struct Call {
    need: u32,
    other: u32,
    room: usize,
}

// Pools two lists, and tells the refusal; the buffer is kept.
fn too_many(rt: &impl Print, label: &str, first: Keys, second: Keys, call: Call) -> io::Result<()> {
    let mut needs = [[0u32; 2]; REGISTERS];
    let mut a = [0u32; WORDS];
    let mut b = [0u32; WORDS];
    random::needs(59, call.need, &mut needs);
    let one = write(first, false, &needs, &mut a);
    random::needs(59, call.other, &mut needs);
    let other = write(second, true, &needs, &mut b);
    rt.print(label)?;
    refuse(rt, one, other, call.room)
}

fn refuse<'a>(rt: &impl Print, a: &'a [u32], b: &'a [u32], room: usize) -> io::Result<()> {
    let mut answer = [DIRT; WORDS];
    match pool_in(a, b, &mut answer, room) {
        Ok(_) => rt.println("pooled"),
        Err(refused) => {
            print!(rt; "{}, ", name_kept(&answer, 0))?;
            show::refusal(rt, refused)
        }
    }
}

// A call with such needs of both lists.
fn alike(need: u32, room: usize) -> Call {
    Call {
        need,
        other: need,
        room,
    }
}

pub fn refused(rt: &impl Print) -> io::Result<()> {
    let plain = alike(0, WORDS);
    let with_needs = alike(MAX_NEED, WORDS);
    let no_place = alike(MAX_NEED, 0);
    let apart = Call {
        need: MAX_NEED,
        other: 0,
        room: 0,
    };
    too_many(rt, "2048 pairs and another: ", FULL, NEXT, plain)?;
    too_many(rt, "the other way round: ", NEXT, FULL, plain)?;
    too_many(rt, "2049 pairs in turn: ", MORE_EVEN, ODD, with_needs)?;
    too_many(rt, "the same in no place: ", MORE_EVEN, ODD, no_place)?;
    too_many(rt, "the same with other needs: ", MORE_EVEN, ODD, apart)?;
    too_many(
        rt,
        "2048 pairs in a place too few: ",
        EVEN,
        ODD,
        alike(0, PLAIN_WORDS - 1),
    )?;
    too_many(
        rt,
        "the same with needs: ",
        EVEN,
        ODD,
        alike(MAX_NEED, WORDS - 1),
    )
}
