// Raises from register to register: a register that rose stands in line, and when its turn comes the rules that start from it are
// applied. Which register comes when is a hint only; the rules are looked up in the list.
#![tactic(auto)]

ghost use Rattle.timing.specs.Limits.{max_timing};
ghost use Rattle.list_format.specs.Lists.{pairs};
ghost use Rattle.free_laws.specs.Constraint.{constraints, Bound};
ghost use Rattle.free_laws.specs.Raise.{Risen};
ghost use Rattle.free_rounds.specs.Raise.{Raising};

use delay_list::DelayList;
use pair_ends::{Ends, REGISTERS};
use timing::MAX_PAIRS;

// The registers that stand in line, so many from the place `first` on, and how many ends may still be looked at. A register has 1
// among the waits where it stands in line.
#[derive(Drop)]
struct Line {
    places: [u16; REGISTERS],
    waits: [u16; REGISTERS],
    first: usize,
    waiting: usize,
    left: usize,
}

// So many ends for each pair are looked at; a trial that takes more is left to others.
const LOOKS: usize = 4;

const MOST: usize = 2 * MAX_PAIRS;

impl Line {
    // Place i of the line.
    fn place(&self, i: usize) -> usize {
        (self.first % REGISTERS + i % REGISTERS) % REGISTERS
    }

    // Register r stands in line, where it does not yet.
    fn join(&mut self, r: usize) {
        if r < REGISTERS && self.waits[r] != 1 && self.waiting < REGISTERS {
            self.waits[r] = 1;
            self.places[self.place(self.waiting) % REGISTERS] = r as u16;
            self.waiting += 1;
        }
    }

    // Register r, if it is below n, stands in line; one end more has been looked at.
    fn looked(&mut self, n: usize, r: usize) {
        self.left = self.left.saturating_sub(1);
        if r < n {
            self.join(r);
        }
    }

    // The first in line leaves it.
    fn take_first(&mut self) -> usize {
        let r = usize::from(self.places[self.first % REGISTERS]);
        self.waiting = self.waiting.saturating_sub(1);
        self.first = self.place(1);
        self.waits[r % REGISTERS] = 0;
        r
    }

    // Whether nobody's turn comes: none is in line, or enough ends have been looked at.
    fn is_over(&self) -> bool {
        self.waiting == 0 || self.left == 0
    }

    // The rules that start from register r: each has the number of the end there.
    fn visit(
        &mut self,
        list: DelayList,
        x: &mut [u32],
        parents: &mut [u16; REGISTERS],
        period: u32,
        ends: Ends,
        r: usize,
    )
        requires { Raising list.words.now list.pairs period x.old }
        ensures { Risen max_timing (constraints period (pairs list.entry.words.now)) x.old x.new }
    {
        for rule in ends.at(r) {
            let raised = free_rounds::apply(list, x, parents, period, rule);
            self.looked(x.len(), raised);
        }
    }

    // Turns until the line is over, or as many have been taken as there are registers.
    fn chase(
        &mut self,
        list: DelayList,
        x: &mut [u32],
        parents: &mut [u16; REGISTERS],
        period: u32,
        ends: Ends,
    )
        requires { Raising list.words.now list.pairs period x.old }
        ensures { Risen max_timing (constraints period (pairs list.entry.words.now)) x.old x.new }
    {
        for _ in 0..x.len() {
            if self.is_over() {
                return;
            }
            let r = self.take_first();
            self.visit(list, x, parents, period, ends, r);
        }
    }

    // All registers that rose since their times were remembered stand in line.
    fn collect(&mut self, x: &[u32], old: &[u32; REGISTERS]) {
        for (r, time) in x.iter().enumerate() {
            if *time != old[r % REGISTERS] {
                self.join(r);
            }
        }
    }
}

// The times of the registers, to be told later which of them rose.
pub fn remember(x: &[u32], old: &mut [u32; REGISTERS]) {
    for (r, time) in x.iter().enumerate() {
        old[r % REGISTERS] = *time;
    }
}

// From the registers that rose since their times were remembered, stretches of as many turns as there are registers at most, until
// the line is over, with raises along the parents after each. A longer period if a cycle of parents asks for one, else 0.
pub fn settle(
    list: DelayList,
    x: &mut [u32],
    parents: &mut [u16; REGISTERS],
    period: u32,
    ends: Ends,
    old: &mut [u32; REGISTERS],
) -> u32
    requires { Raising list.words.now list.pairs period x.old }
    ensures risen { Risen max_timing (constraints period (pairs list.entry.words.now)) x.old x.new }
    ensures bound { Bound (pairs list.entry.words.now) result }
{
    let mut line = Line {
        places: [0; REGISTERS],
        waits: [0; REGISTERS],
        first: 0,
        waiting: 0,
        left: LOOKS * (list.pairs % MOST),
    };
    for _ in 0..x.len() {
        line.collect(x, old);
        line.chase(list, x, parents, period, ends);
        if line.is_over() {
            return 0;
        }
        remember(x, old);
        let longer = free_carry::carry(list, x, parents, period);
        if period < longer {
            return longer;
        }
    }
    0
}
