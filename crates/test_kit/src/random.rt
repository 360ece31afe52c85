// Numbers that look random, and lists of them.
ghost use Rattle.std.specs.Prelude.{◌-◌, ◌^◌, ◌<◌, ◌≤◌};
ghost use Rattle.timing.specs.Limits.{max_registers, max_pairs};

use crate::largest::{PAIRS, REGISTERS};
use crate::lists::{List, Needs, Pair};
use crate::places::front;

// The numbers are those below this, 2^31 - 1; the factor takes one to the next.
const MODULUS: u64 = 0x7FFF_FFFF;

const FACTOR: u64 = 48_271;

// The next number of the run.
pub fn next(seed: u64) -> u64
    ensures { result < 2 ^ 31 - 1 }
{
    (seed % MODULUS) * FACTOR % MODULUS
}

// A number from 0 to most.
pub fn up_to(seed: u64, most: u32) -> u32
    ensures { result ≤ most }
{
    (seed % (u64::from(most) + 1)) as u32
}

// A list that was drawn, of the first n registers and the first m pairs. With it the next seed.
#[derive(Clone, Copy)]
pub struct Drawn<const N: usize, const M: usize> {
    pub needs: [Needs; N],
    pub pairs: [Pair; M],
    pub n: usize,
    pub m: usize,
    pub seed: u64,
}

impl<const N: usize, const M: usize> Drawn<N, M> {
    pub fn list(&self) -> List<'_> {
        List {
            pairs: front(&self.pairs, self.m),
            needs: front(&self.needs, self.n),
        }
    }
}

// Needs up to `most` in every place. The answer is the next seed.
pub fn needs(seed: u64, most: u32, needs: &mut [Needs]) -> u64 {
    let mut s = seed;
    for x in needs.iter_mut() {
        let hold = next(s);
        s = next(hold);
        *x = [up_to(hold, most), up_to(s, most)];
    }
    s
}

// Keys that are passed over before the next of `left` pairs: up to twice its share of the `spare` ones.
fn gap(seed: u64, spare: u32, left: u32) -> u32
    ensures { result ≤ spare }
{
    let share = 2 * u64::from(spare) / u64::from(left.max(1));
    up_to(seed, share.min(u64::from(spare)) as u32)
}

// The pair of n registers with a key, and delays up to `most` with the hold of the capture register on top; and the next seed.
fn pair(seed: u64, key: u32, n: u32, most: u32, list: List<'_>) -> (Pair, u64) {
    let a = next(seed);
    let b = next(a);
    let capture = key % n.max(1);
    let [hold, _] = list.needs_of(capture);
    let greatest = up_to(a, most);
    let least = up_to(b, greatest);
    let p = [
        key / n.max(1),
        capture,
        least.saturating_add(hold),
        greatest.saturating_add(hold),
    ];
    (p, b)
}

// Pairs of n registers with such needs in every place, ascending by their keys, `launch * n + capture`. The answer is the next seed.
pub fn pairs(seed: u64, n: u32, most: u32, needs: &[Needs], pairs: &mut [Pair]) -> u64 {
    let list = List { pairs: &[], needs };
    let m = u32::try_from(pairs.len()).unwrap_or(u32::MAX);
    let mut spare = n.saturating_mul(n).saturating_sub(m);
    let mut key: u32 = 0;
    let mut s = seed;
    for (left, p) in (1..=m).rev().zip(pairs.iter_mut()) {
        s = next(s);
        let passed = gap(s, spare, left);
        spare -= passed;
        key = key.saturating_add(passed);
        (*p, s) = pair(s, key, n, most, list);
        key = key.saturating_add(1);
    }
    s
}

// How many pairs of n registers there are, up to `most`.
pub fn count(seed: u64, n: u32, most: usize) -> usize
    ensures { result ≤ most }
{
    let keys = n.saturating_mul(n) as usize;
    up_to(seed, most.min(keys) as u32) as usize
}

// A list of up to `registers` registers, no fewer than one, and up to M pairs, ascending, with delays up to `delay`, more with a hold,
// and needs up to `need`.
pub fn list<const N: usize, const M: usize>(
    seed: u64,
    registers: u32,
    delay: u32,
    need: u32,
) -> Drawn<N, M>
    ensures registers { registers ≤ max_registers → result.n ≤ max_registers }
    ensures pairs { M ≤ max_pairs → result.m ≤ max_pairs }
{
    let mut d = Drawn {
        needs: [[0; 2]; N],
        pairs: [[0; 4]; M],
        n: 0,
        m: 0,
        seed,
    };
    let n = 1 + up_to(seed, registers.saturating_sub(1));
    d.n = n as usize;
    d.m = count(next(seed), n, M);
    let after = needs(seed, need, &mut d.needs);
    if let Some(places) = d.pairs.get_mut(..d.m) {
        d.seed = next(pairs(after, n, delay, &d.needs, places));
    }
    d
}

// A list of the largest size with needs up to `need`, and delays up to `delay` to which holds are added.
pub fn largest(seed: u64, delay: u32, need: u32) -> Drawn<REGISTERS, PAIRS> {
    let mut d = Drawn {
        needs: [[0; 2]; REGISTERS],
        pairs: [[0; 4]; PAIRS],
        n: REGISTERS,
        m: PAIRS,
        seed,
    };
    needs(seed, need, &mut d.needs);
    d.seed = pairs(seed, timing::MAX_REGISTERS, delay, &d.needs, &mut d.pairs);
    d
}
