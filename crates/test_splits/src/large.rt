// Chains of 512 registers, along the list and against it: one late register makes all after it late. The pairs come in the order of
// their launch registers.
use crate::examples::show_split;
use std::io;
use test_kit::lists::{List, Pair};
use test_kit::{largest, show};

// The pairs of a chain, and the words and places of scratch of its list.
const CHAIN: usize = largest::REGISTERS - 1;

const WORDS: usize = 3 * CHAIN + 2 + largest::REGISTERS;

const SCRATCH: usize = 6 * largest::REGISTERS + 4 * CHAIN;

// The period and the offset at which the chain is split: its first pair's greatest delay is longer than the period.
const PERIOD: u32 = 8;

const OFFSET: u32 = 1;

// The pair of register k and the next: from k, or to it. The greatest delay of the chain's first pair takes the period and the offset, that
// of the others the period alone.
fn pair(k: usize, against: bool) -> Pair {
    let low = (k % CHAIN) as u32;
    let first = k == if against { CHAIN - 1 } else { 0 };
    let greatest = if first { PERIOD + OFFSET } else { PERIOD };
    if against {
        return [low + 1, low, PERIOD, greatest];
    }
    [low, low + 1, PERIOD, greatest]
}

// The largest need of the chains.
const NEED: u32 = 2;

// The chain at the period and the offset, and the timings of the first, the second and the last register. Each register has this need for
// hold and for setup, which comes on top of the period.
fn chain(rt: &impl Print, label: &str, against: bool, need: u32) -> io::Result<()> {
    let mut pairs = [[0u32; 4]; CHAIN];
    let mut words = [0u32; WORDS];
    let mut answer = [9u32; largest::REGISTERS];
    let mut scratch = [9u32; SCRATCH];
    for (k, p) in pairs.iter_mut().enumerate() {
        *p = pair(k, against);
    }
    let list = List {
        pairs: &pairs,
        needs: &[[need; 2]; largest::REGISTERS],
    };
    let given = list.write(&mut words);
    let period = PERIOD.saturating_add(need);
    rt.print(label)?;
    show_split(
        rt,
        split::split(given, period, OFFSET, &mut answer, &mut scratch),
    )?;
    show::numbers(rt, &[answer[0], answer[1], answer[CHAIN]])
}

pub fn chains(rt: &impl Print) -> io::Result<()> {
    chain(rt, "chain of 512: ", false, 0)?;
    chain(rt, "the same against the list: ", true, 0)?;
    chain(rt, "the same with needs: ", true, NEED)
}
