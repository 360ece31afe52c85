// Random lists of one chip, two at a time: with the same registers and needs.
ghost use Rattle.std.specs.Prelude.{◌+◌, ◌≤◌};
ghost use Rattle.timing.specs.Limits.{max_registers, max_pairs};

use test_kit::lists::{List, Needs, Pair, Pairs};
use test_kit::places::{front, rest};
use test_kit::random;
use test_kit::random::{count, next, up_to};
use test_kit::tally::{Fate, Tally, Turn};

// Two lists of n registers, with so many pairs each, those of the second after those of the first; and the next seed.
#[derive(Clone, Copy)]
struct Two<const N: usize, const M: usize> {
    needs: [Needs; N],
    pairs: [Pair; M],
    n: usize,
    first: usize,
    second: usize,
    seed: u64,
}

// The two lists, the pairs of both as one list, and the next seed.
#[derive(Clone, Copy)]
pub struct Lists<'a> {
    pub first: List<'a>,
    pub second: List<'a>,
    pub both: List<'a>,
    pub seed: u64,
}

impl<const N: usize, const M: usize> Two<N, M> {
    fn of<'a>(&'a self, pairs: &'a [Pair]) -> List<'a> {
        List {
            pairs,
            needs: front(&self.needs, self.n),
        }
    }

    fn lists(&self) -> Lists<'_> {
        let end = self.first.saturating_add(self.second);
        Lists {
            first: self.of(front(&self.pairs, self.first)),
            second: self.of(front(rest(&self.pairs, self.first), self.second)),
            both: self.of(front(&self.pairs, end)),
            seed: self.seed,
        }
    }
}

// Two lists of up to N registers, no fewer than one, and up to half of M pairs each, ascending, with delays up to `delay`, more with a
// hold, and needs up to `need`.
fn draw<const N: usize, const M: usize>(seed: u64, delay: u32, need: u32) -> Two<N, M>
    requires { (N ≤ 64) × (M ≤ 64) }
    ensures { (result.n ≤ max_registers) × (result.first + result.second ≤ max_pairs) }
{
    let mut d = Two {
        needs: [[0; 2]; N],
        pairs: [[0; 4]; M],
        n: 0,
        first: 0,
        second: 0,
        seed,
    };
    let n = 1 + up_to(seed, (N as u32).saturating_sub(1));
    d.n = n as usize;
    let a = random::needs(seed, need, &mut d.needs);
    d.first = count(next(a), n, M / 2);
    let mut b = a;
    if let Some(places) = d.pairs.get_mut(..d.first) {
        b = random::pairs(a, n, delay, &d.needs, places);
    }
    d.second = count(next(b), n, M / 2);
    let end = d.first.saturating_add(d.second);
    if let Some(places) = d.pairs.get_mut(d.first..end) {
        d.seed = random::pairs(next(b), n, delay, &d.needs, places);
    }
    d
}

// How so many random lists fare, two at a time, each two judged by one function.
pub fn many_pools<const N: usize, const M: usize, F: Fn(Lists<'_>) -> Turn>(
    turns: u32,
    delay: u32,
    need: u32,
    judge: F,
) -> Tally
    requires size { (N ≤ 64) × (M ≤ 64) }
    requires callable { F.IsAlwaysCallable judge }
{
    let mut tally = Tally::none();
    let mut next = 37;
    for _ in 0..turns {
        let d = draw::<N, M>(next, delay, need);
        let t = judge(d.lists());
        tally = tally.with(t.fate);
        next = t.seed;
    }
    tally
}

// ---- the pairs of one list dealt to two

// A pair goes to one of the lists, to one of them or to both, or to both.
#[derive(Clone, Copy)]
pub enum Deal {
    Apart,
    Mixed,
    Both,
}

// Where a pair goes.
#[derive(Clone, Copy, PartialEq, Eq)]
enum Hand {
    First,
    Second,
    Both,
}

impl Deal {
    fn hand(self, seed: u64) -> Hand {
        let most = match self {
            Deal::Apart => 1,
            Deal::Mixed => 2,
            Deal::Both => return Hand::Both,
        };
        match up_to(seed, most) {
            0 => Hand::First,
            1 => Hand::Second,
            _ => Hand::Both,
        }
    }
}

// The most pairs that are dealt.
pub const DEALT: usize = 12;

// The pairs of each list, and the next seed.
#[derive(Clone, Copy)]
pub struct Dealt {
    pub first: Pairs<DEALT>,
    pub second: Pairs<DEALT>,
    pub seed: u64,
}

// A number from low to high.
fn between(seed: u64, low: u32, high: u32) -> u32 {
    low.saturating_add(up_to(seed, high.saturating_sub(low)))
}

impl Dealt {
    // A pair to both lists: each of its delays stands in one of them, and a delay between in the other.
    fn to_both(&mut self, p: Pair) {
        let [launch, capture, least, greatest] = p;
        let s = next(self.seed);
        let t = next(s);
        let low = between(s, least, greatest);
        let high = between(t, low, greatest);
        let lows = if s % 2 == 0 {
            [least, low]
        } else {
            [low, least]
        };
        let highs = if t % 2 == 0 {
            [greatest, high]
        } else {
            [high, greatest]
        };
        self.first.push([launch, capture, lows[0], highs[0]]);
        self.second.push([launch, capture, lows[1], highs[1]]);
        self.seed = t;
    }

    // A pair to the list, or the lists, that it goes to.
    fn hand(&mut self, p: Pair, deal: Deal) {
        self.seed = next(self.seed);
        match deal.hand(self.seed) {
            Hand::First => self.first.push(p),
            Hand::Second => self.second.push(p),
            Hand::Both => self.to_both(p),
        }
    }
}

// Deals the pairs of a list to two, of which it is the pooled one.
pub fn deal_out(seed: u64, pairs: &[Pair], deal: Deal) -> Dealt {
    let mut d = Dealt {
        first: Pairs::none(),
        second: Pairs::none(),
        seed,
    };
    for p in pairs {
        d.hand(*p, deal);
    }
    d
}
