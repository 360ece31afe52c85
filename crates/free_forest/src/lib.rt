// The forest of a descent: a register may hang below another, by the rule that raised it last, its parent. The registers stand in
// an order in which each is followed by all that hangs below it, its branch; so a branch is moved stretch by stretch.
// All of it is a hint: it is safe for arrays of any contents, and nothing is promised of it.
#![tactic(auto)]

ghost use Rattle.std.specs.Prelude.{◌≡◌, ◌<◌, length};

use delay_list::DelayList;
use free_rounds::NO_RULE;
use pair_ends::REGISTERS;
use timing::smaller;

// ---- rules

// A rule between two registers: what it asks of the time of the one that it ends at, what it has there, and 1 for setup.
#[derive(Clone, Copy)]
pub struct Link {
    pub from: usize,
    pub to: usize,
    pub asked: u32,
    pub there: u32,
    pub setup: u32,
}

// A register with its time and the count of setup rules above it.
#[derive(Clone, Copy)]
pub struct Here {
    pub register: usize,
    pub time: u32,
    pub setups: u32,
}

// What an end of a pair, at a register, has across: the register there with its time, the delays between, and whether this end is
// the launch. The rule that starts at an end has its number.
#[derive(Clone, Copy)]
pub struct Across {
    pub at: usize,
    pub register: usize,
    pub time: u32,
    pub least: u32,
    pub greatest: u32,
    pub launch: bool,
}

// The periods of a descent: it has come down to `level`, and times are told at `low`.
#[derive(Clone, Copy)]
pub struct Span {
    pub low: u32,
    pub level: u32,
}

// By how much the registers of a branch move: their times, and the counts of setup rules above them.
#[derive(Clone, Copy)]
pub struct Distance {
    pub time: u32,
    pub setups: u32,
}

// Where the list has no such end, one whose rules are met.
pub fn across_at(list: DelayList, x: &[u32], end: u16) -> Across
    requires { length x.now ≡ list.registers }
{
    let k = usize::from(end / 2);
    let launch = end % 2 == 0;
    if k >= list.pairs {
        return Across {
            at: 0,
            register: 0,
            time: 0,
            least: 0,
            greatest: 0,
            launch,
        };
    }
    let p = list.pair(k);
    let (at, across) = if launch {
        (p.launch, p.capture)
    } else {
        (p.capture, p.launch)
    };
    let r = across as usize;
    Across {
        at: at as usize,
        register: r,
        time: x[r],
        least: p.least,
        greatest: p.greatest,
        launch,
    }
}

impl Across {
    // The rule that starts at the end, where the register is: at the launch the pair's setup, at the capture its hold.
    pub fn rule_from(self, h: Here, low: u32) -> Link {
        if self.launch {
            return Link {
                from: h.register,
                to: self.register,
                asked: h.time.wrapping_add(self.greatest),
                there: self.time.wrapping_add(low),
                setup: 1,
            };
        }
        Link {
            from: h.register,
            to: self.register,
            asked: h.time,
            there: self.time.wrapping_add(self.least),
            setup: 0,
        }
    }

    // The rule that ends there, the other one.
    pub fn rule_into(self, h: Here, low: u32) -> Link {
        if self.launch {
            return Link {
                from: self.register,
                to: h.register,
                asked: self.time,
                there: h.time.wrapping_add(self.least),
                setup: 0,
            };
        }
        Link {
            from: self.register,
            to: h.register,
            asked: self.time.wrapping_add(self.greatest),
            there: h.time.wrapping_add(low),
            setup: 1,
        }
    }
}

impl Link {
    // Whether the rule is broken at the level, where it ends at a register with at least as many setup rules above it, `more` of
    // them: the longer the period, the more it is broken.
    fn is_broken_at_level(self, more: u32, s: Span) -> bool {
        if self.asked > self.there {
            return true;
        }
        more != 0 && (self.there - self.asked) / more < s.level.wrapping_sub(s.low)
    }

    // Up to which period from `low` to the level the rule is broken, with so many setup rules above the registers that it starts
    // from and ends at; 0 where it is met at all of them.
    pub fn broken_until(self, source: u32, own: u32, s: Span) -> u32 {
        let above = source.wrapping_add(self.setup);
        if above <= own {
            return if self.is_broken_at_level(own - above, s) {
                s.level
            } else {
                0
            };
        }
        if self.asked <= self.there {
            return 0;
        }
        let further = (self.asked - self.there - 1) / (above - own);
        smaller(s.level, s.low.wrapping_add(further))
    }
}

// ---- the order

// So many registers may be set aside.
pub const ASIDE: usize = 32;

// Nobody follows, or nobody stands before. A number of 16 bits takes less room than an option.
const NOBODY: u16 = 0x200;

// Added to the count of a register that moves.
const MOVES: u16 = 0x8000;

fn number_of(r: Option<usize>) -> u16 {
    match r {
        Some(q) => (q % REGISTERS) as u16,
        None => NOBODY,
    }
}

fn register_of(number: u16) -> Option<usize> {
    let r = usize::from(number);
    if r < REGISTERS { Some(r) } else { None }
}

// The register after r, if there is one.
fn following(r: usize, n: usize) -> Option<usize>
    requires { r < n }
{
    if r + 1 < n { Some(r + 1) } else { None }
}

// For each register the next, the one before and the count of setup rules above it; and the registers set aside.
#[derive(Drop)]
pub struct Forest {
    pub next: [u16; REGISTERS],
    pub before: [u16; REGISTERS],
    pub counts: [u16; REGISTERS],
    pub aside: [u16; ASIDE],
}

impl Forest {
    pub fn after(&self, r: usize) -> Option<usize> {
        register_of(self.next[r % REGISTERS])
    }

    pub fn moves(&self, r: usize) -> bool {
        self.counts[r % REGISTERS] >= MOVES
    }

    pub fn setups(&self, r: usize) -> u32 {
        u32::from(self.counts[r % REGISTERS] % MOVES)
    }

    pub fn here(&self, x: &[u32], r: usize) -> Here {
        let time = if r < x.len() { x[r] } else { 0 };
        Here {
            register: r,
            time,
            setups: self.setups(r),
        }
    }

    // Register r is set aside at place i, and looked up there.
    pub fn set_aside(&mut self, i: usize, r: usize) {
        self.aside[i % ASIDE] = (r % REGISTERS) as u16;
    }

    pub fn aside_at(&self, i: usize) -> Option<usize> {
        register_of(self.aside[i % ASIDE])
    }

    // Register q follows register r; either may be nobody.
    fn tie(&mut self, r: Option<usize>, q: Option<usize>) {
        if let Some(a) = r {
            self.next[a % REGISTERS] = number_of(q);
        }
        if let Some(b) = q {
            self.before[b % REGISTERS] = number_of(r);
        }
    }

    // The branch from `first` to `last` is put right after register r.
    pub fn put_below(&mut self, first: usize, last: usize, r: usize) {
        self.tie(
            register_of(self.before[first % REGISTERS]),
            self.after(last),
        );
        let next = self.after(r);
        self.tie(Some(r), Some(first));
        self.tie(Some(last), next);
    }

    // All times 0, no parents, each register a branch of its own.
    pub fn set_apart(&mut self, x: &mut [u32], parents: &mut [u16; REGISTERS]) {
        x.fill(0);
        parents.fill(NO_RULE);
        self.counts.fill(0);
        self.tie(None, Some(0));
        for r in 0..x.len() {
            self.tie(Some(r), following(r, x.len()));
        }
    }

    // By how much a register moves that is to hang by the rule.
    pub fn distance(&self, l: Link) -> Distance {
        let above = self.setups(l.from).wrapping_add(l.setup);
        Distance {
            time: l.asked.wrapping_sub(l.there),
            setups: above.wrapping_sub(self.setups(l.to)),
        }
    }

    fn shift(&mut self, x: &mut [u32], r: usize, by: Distance) {
        if r < x.len() {
            x[r] = x[r].wrapping_add(by.time);
        }
        let c = self.setups(r).wrapping_add(by.setups) % 0x8000;
        self.counts[r % REGISTERS] = (c as u16) + MOVES;
    }

    // Register r and all that hangs below it are moved; the last of them in their order.
    pub fn move_branch(
        &mut self,
        list: DelayList,
        x: &mut [u32],
        parents: &[u16; REGISTERS],
        r: usize,
        by: Distance,
    ) -> usize {
        self.shift(x, r, by);
        let mut last = r;
        for _ in 0..x.len() {
            let Some(q) = self.after(last) else {
                return last;
            };
            if !self.moves(free_carry::above(list, parents, q)) {
                return last;
            }
            self.shift(x, q, by);
            last = q;
        }
        last
    }

    // The branch from `first` to `last` has moved.
    pub fn stand_still(&mut self, first: usize, last: usize) {
        let mut r = first;
        for _ in 0..REGISTERS {
            self.counts[r % REGISTERS] %= MOVES;
            if r == last {
                return;
            }
            let Some(q) = self.after(r) else {
                return;
            };
            r = q;
        }
    }
}
