// Raises along parents: each register as the rule that raised it last asks, the register that the rule starts from before it.
// The parents are a hint, kept from period to period: each rule is looked up in the list before it raises anything.
#![tactic(auto)]

ghost use Rattle.timing.specs.Limits.{max_timing};
ghost use Rattle.list_format.specs.Lists.{pairs};
ghost use Rattle.free_laws.specs.Constraint.{constraints, Bound};
ghost use Rattle.free_laws.specs.Raise.{Risen};
ghost use Rattle.free_rounds.specs.Raise.{Raising};

use delay_list::DelayList;
use free_rounds::PARENTS;
use timing::larger;

// The register that a rule starts from, or r where the list has no such rule.
fn source(list: DelayList, rule: u16, r: usize) -> usize {
    let k = usize::from(rule / 2);
    if k >= list.pairs {
        return r;
    }
    let p = list.pair(k);
    if rule % 2 == 0 {
        return p.launch as usize;
    }
    p.capture as usize
}

// The register that the parent of r starts from; r itself if it has none.
pub fn above(list: DelayList, parents: &[u16; PARENTS], r: usize) -> usize {
    source(list, parents[r % PARENTS], r)
}

// Registers that ways up along parents have met: the mark of the way that met each first, 0 if none has; and the registers of the
// way at hand, so many, one above the other.
#[derive(Drop)]
struct Met {
    marks: [u16; PARENTS],
    stack: [u16; PARENTS],
    height: usize,
}

// The end of a way up along parents: the last register that it met first, and the register that came after it.
#[derive(Clone, Copy)]
pub struct Way {
    pub last: usize,
    pub to: usize,
}

impl Met {
    // From r up along parents to a register that has been met: each on the way is marked and put on the stack.
    fn go_up(&mut self, list: DelayList, parents: &[u16; PARENTS], r: usize, mark: u16) -> Way {
        let mut last = r % PARENTS;
        let mut at = r % PARENTS;
        self.height = 0;
        for i in 0..PARENTS {
            if self.marks[at] != 0 {
                break;
            }
            self.marks[at] = mark;
            self.stack[i] = at as u16;
            self.height = i + 1;
            last = at;
            at = above(list, parents, at) % PARENTS;
        }
        Way { last, to: at }
    }

    // The period that the cycle asks for which a way up has closed; 0 if it has closed none.
    fn closed(&self, list: DelayList, parents: &[u16; PARENTS], way: Way, mark: u16) -> u32
        ensures { Bound (pairs list.entry.words.now) result }
    {
        let to = way.to;
        if self.marks[to % PARENTS] != mark || to == way.last || to >= list.registers {
            return 0;
        }
        free_cycles::around(list, parents, to as u32)
    }

    // The registers on the stack, from the top down, each raised as its parent asks.
    fn come_down(&self, list: DelayList, x: &mut [u32], parents: &mut [u16; PARENTS], period: u32)
        requires { Raising list.words.now list.pairs period x.old }
        ensures { Risen max_timing (constraints period (pairs list.entry.words.now)) x.old x.new }
    {
        for i in (0..self.height).rev() {
            let r = usize::from(self.stack[i % PARENTS]);
            let rule = parents[r % PARENTS];
            free_rounds::apply(list, x, parents, period, rule);
        }
    }

    // The way up from r, and down again.
    fn branch(
        &mut self,
        list: DelayList,
        x: &mut [u32],
        parents: &mut [u16; PARENTS],
        period: u32,
        r: usize,
    ) -> u32
        requires { Raising list.words.now list.pairs period x.old }
        ensures risen { Risen max_timing (constraints period (pairs list.entry.words.now)) x.old x.new }
        ensures bound { Bound (pairs list.entry.words.now) result }
    {
        let mark = ((r % PARENTS) as u16) + 1;
        let way = self.go_up(list, parents, r, mark);
        let longer = self.closed(list, parents, way, mark);
        self.come_down(list, x, parents, period);
        longer
    }
}

// Every register raised as its parent asks. The longest period that a cycle of parents asks for, or 0.
pub fn carry(list: DelayList, x: &mut [u32], parents: &mut [u16; PARENTS], period: u32) -> u32
    requires { Raising list.words.now list.pairs period x.old }
    ensures risen { Risen max_timing (constraints period (pairs list.entry.words.now)) x.old x.new }
    ensures bound { Bound (pairs list.entry.words.now) result }
{
    let mut met = Met {
        marks: [0; PARENTS],
        stack: [0; PARENTS],
        height: 0,
    };
    let mut most = 0;
    for r in 0..x.len() {
        let longer = met.branch(list, x, parents, period, r);
        most = larger(most, longer);
    }
    most
}
