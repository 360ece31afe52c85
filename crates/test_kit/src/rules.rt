// The rules of a list straight from its numbers and its needs, and its splits.
use crate::lists::{List, Pair};
use crate::places::{kept, same};
use refusals::Refused;
use timing::{PER_PAIR, PER_REGISTER};

// The registers of a list whose splits are searched at the most, and how many splits they have.
pub const SPLIT: usize = 6;

const SPLITS: u32 = 64;

// The timing of a register, or 0.
pub fn at(s: &[u32], register: u32) -> u32 {
    s.get(register as usize).copied().unwrap_or(0)
}

impl<'a> List<'a> {
    // What is left of the period after a pair's setup, below 0 where the rule is broken.
    pub fn setup_margin(self, pair: Pair, period: u32, s: &[u32]) -> i64 {
        let [launch, capture, _, greatest] = pair;
        let [_, setup] = self.needs_of(capture);
        let end = u64::from(at(s, capture)) + u64::from(period);
        let data = u64::from(at(s, launch)) + u64::from(greatest) + u64::from(setup);
        (end as i64) - (data as i64)
    }

    // What is left of a pair's least delay after its hold.
    pub fn hold_margin(self, pair: Pair, s: &[u32]) -> i64 {
        let [launch, capture, least, _] = pair;
        let [hold, _] = self.needs_of(capture);
        let data = u64::from(at(s, launch)) + u64::from(least);
        let end = u64::from(at(s, capture)) + u64::from(hold);
        (data as i64) - (end as i64)
    }

    // Whether a schedule breaks no rule at a period.
    pub fn admits(self, period: u32, s: &[u32]) -> bool {
        self.pairs.iter().all(|p| self.setup_margin(*p, period, s) >= 0
            && self.hold_margin(*p, s) >= 0)
    }

    // The places of scratch that a split or a plan takes.
    pub fn scratch(self) -> usize {
        let registers = self.needs.len().saturating_mul(PER_REGISTER);
        registers.saturating_add(self.pairs.len().saturating_mul(PER_PAIR))
    }

    // The timings of the first split that works at a period and an offset.
    pub fn first_split(self, period: u32, offset: u32) -> Option<[u32; SPLIT]> {
        let n = self.needs.len().min(SPLIT);
        for v in 0..SPLITS {
            let s = split(v, n, offset);
            if self.admits(period, &s) {
                return Some(s);
            }
        }
        None
    }

    // Whether a call came to the first split, whose timings stand in the first places of the answer; or to none, and all places are kept.
    pub fn is_first_split(
        self,
        period: u32,
        offset: u32,
        said: Result<bool, Refused>,
        answer: &[u32],
    ) -> bool {
        let n = self.needs.len();
        match (said, self.first_split(period, offset)) {
            (Ok(true), Some(s)) => same(answer, &s, n) && kept(answer, n),
            (Ok(false), None) => kept(answer, 0),
            _ => false,
        }
    }
}

// The timings of split v of n registers: its last digit in base two is the last register's choice.
fn split(v: u32, n: usize, offset: u32) -> [u32; SPLIT] {
    let mut s = [0; SPLIT];
    let mut digits = v;
    for x in s.iter_mut().take(n).rev() {
        *x = digits % 2 * offset;
        digits /= 2;
    }
    s
}
