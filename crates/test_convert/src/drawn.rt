// Random lists whose pairs come in any order and repeat.
ghost use Rattle.std.specs.Prelude.{◌≤◌};
ghost use Rattle.timing.specs.Limits.{max_registers, max_pairs};

use test_kit::lists::{List, Pair};
use test_kit::random::{Drawn, needs, next, up_to};
use test_kit::tally::{Fate, Tally};

// Places enough for the words of a list.
const WORDS: usize = 96;

// A pair of n registers and delays up to `most` with the hold of the capture register on top; and the next seed.
fn pair(seed: u64, n: u32, most: u32, list: List<'_>) -> (Pair, u64) {
    let a = next(seed);
    let b = next(a);
    let c = next(b);
    let d = next(c);
    let last = n.saturating_sub(1);
    let capture = up_to(b, last);
    let [hold, _] = list.needs_of(capture);
    let greatest = up_to(c, most);
    let least = up_to(d, greatest);
    let p = [
        up_to(a, last),
        capture,
        least.saturating_add(hold),
        greatest.saturating_add(hold),
    ];
    (p, d)
}

// A list of up to N registers, no fewer than one, and up to M pairs, with delays up to `delay`, more with a hold, and needs up to `need`.
fn list<const N: usize, const M: usize>(seed: u64, delay: u32, need: u32) -> Drawn<N, M>
    requires { (N ≤ 64) × (M ≤ 64) }
    ensures { (result.n ≤ max_registers) × (result.m ≤ max_pairs) }
{
    let second = next(seed);
    let n = 1 + up_to(seed, (N as u32).saturating_sub(1));
    let mut d = Drawn {
        needs: [[0; 2]; N],
        pairs: [[0; 4]; M],
        n: n as usize,
        m: up_to(second, M as u32) as usize,
        seed,
    };
    let mut s = needs(second, need, &mut d.needs);
    let drawn = List {
        pairs: &[],
        needs: &d.needs,
    };
    for p in d.pairs.iter_mut().take(d.m) {
        (*p, s) = pair(s, n, delay, drawn);
    }
    d.seed = s;
    d
}

// How so many random lists fare, each judged by the list as it was drawn and the words in which it is stored.
pub fn many_stored<const N: usize, const M: usize, F: Fn(List<'_>, &[u32]) -> Fate>(
    seed: u64,
    lists: u32,
    delay: u32,
    need: u32,
    judge: F,
) -> Tally
    requires size { (N ≤ 64) × (M ≤ 64) }
    requires callable { F.IsAlwaysCallable judge }
{
    let mut tally = Tally::none();
    let mut next = seed;
    for _ in 0..lists {
        let mut words = [0u32; WORDS];
        let d = list::<N, M>(next, delay, need);
        let drawn = d.list();
        tally = tally.with(judge(drawn, drawn.store(&mut words)));
        next = d.seed;
    }
    tally
}
