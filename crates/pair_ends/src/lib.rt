// The ends of the pairs at each register, for walks from a register along its pairs.
// They are a hint only, and nothing is promised of them.
#![tactic(auto)]

ghost use Rattle.std.specs.Prelude.{◌^◌, ◌<◌, ◌≤◌};
ghost use Rattle.std.specs.Iterator.{at_most};

use delay_list::DelayList;
use timing::MAX_PAIRS;

pub const REGISTERS: usize = timing::MAX_REGISTERS as usize;

// A pair has two ends: 2k is the launch of pair k, 2k + 1 its capture.
pub const ENDS: usize = 2 * MAX_PAIRS;

// Lists of so many pairs, and places for their ends, which are filled in less time.
pub const FEW_PAIRS: usize = 128;

pub const FEW_ENDS: usize = 2 * FEW_PAIRS;

// What stands where no end has been put: nothing is before it.
pub const NONE: u16 = 0x1FFF;

// Ends i and i + 1 are put at registers a and b, after the ends that are there.
fn join(a: usize, b: usize, i: usize, lasts: &mut [u16; REGISTERS], before: &mut [u16])
    requires { i < 2 ^ 15 }
{
    let j = i + 1;
    if j < before.len() {
        before[i] = lasts[a % REGISTERS];
        lasts[a % REGISTERS] = j as u16;
        before[j] = lasts[b % REGISTERS];
        lasts[b % REGISTERS] = (j + 1) as u16;
    }
}

// The ends of the pairs: lasts[r] is 1 more than the last end at register r, before[e] 1 more than the one before end e, and 0
// stands for none.
#[derive(Clone, Copy)]
pub struct Ends<'a> {
    pub lasts: &'a [u16; REGISTERS],
    pub before: &'a [u16],
}

impl<'a> Ends<'a> {
    // The ends at register r, the last put first: 2k is the launch of pair k, 2k + 1 its capture.
    pub fn at(self, r: usize) -> EndsAt<'a> {
        EndsAt {
            before: self.before,
            next: self.lasts[r % REGISTERS],
        }
    }
}

// The ends at a register that are left of a walk: `next` is 1 more than the first of them, or 0 if none is left.
#[derive(Clone, Copy)]
pub struct EndsAt<'a> {
    before: &'a [u16],
    next: u16,
}

impl<'a> Iterator for EndsAt<'a> {
    type Item = u16;

    ghost remaining = { λ s. at_most s.next };

    fn next(&mut self) -> Option<u16> {
        if self.next == 0 {
            return None;
        }
        let end = self.next - 1;
        self.next = left_of(self.before, end);
        Some(end)
    }
}

// What is left after an end: only ends that are smaller, so that a walk comes to an end whatever the places hold.
fn left_of(before: &[u16], end: u16) -> u16
    ensures { result ≤ end }
{
    let i = usize::from(end);
    if i >= before.len() {
        return 0;
    }
    let next = before[i];
    if next <= end { next } else { 0 }
}

// Both ends of every pair of a list are put in the places lent.
pub fn link<'a>(
    list: DelayList,
    lasts: &'a mut [u16; REGISTERS],
    before: &'a mut [u16],
) -> Ends<'a> {
    for k in 0..list.pairs {
        let p = list.pair(k);
        let first = 2 * (k % MAX_PAIRS);
        join(p.launch as usize, p.capture as usize, first, lasts, before);
    }
    Ends { lasts, before }
}
