// A cycle of rules of a delay list bounds the period: what its rules ask for in all must fit into what they leave.
// The contracts cite `specs/Tracing.antt` and the laws of `free_laws`.
#![tactic(auto)]

ghost use Rattle.std.specs.Prelude.{◌≡◌, ℕ, ◌+◌, ◌*◌, ◌≤◌, ◌<◌, IfSome};
ghost use Rattle.timing.specs.Limits.{max_period};
ghost use Rattle.list_format.specs.Lists.{registers, pairs};
ghost use Rattle.free_laws.specs.Constraint.{Bound};
ghost use Rattle.free_cycles.specs.Tracing.{Traced, Further};

use delay_list::DelayList;
use free_rounds::PARENTS;

// A trail back along rules, from the register `start` to the register `at`: what the rules ask for, what they leave,
// and how many of them are setup.
#[derive(Clone, Copy)]
pub struct Trail {
    pub start: u32,
    pub at: u32,
    pub steps: usize,
    pub gain: u32,
    pub allowance: u32,
    pub setups: u32,
}

impl Trail {
    fn standing(at: u32) -> Trail
        ensures { (result.start ≡ at) × (result.at ≡ at) × (result.steps ≡ 0) × (result.gain ≡ 0) × (result.allowance ≡ 0) × (result.setups ≡ 0) }
    {
        Trail {
            start: at,
            at,
            steps: 0,
            gain: 0,
            allowance: 0,
            setups: 0,
        }
    }
}

// One step back, along rule 2k, setup of pair k, or 2k + 1, its hold. There is none along what is no rule into the register where
// the trail stands.
fn along(list: DelayList, rule: u16, w: Trail) -> Option<Trail>
    requires traced { Traced list.words.now list.registers w }
    requires steps_lt_n { w.steps < list.registers }
    ensures { IfSome result (Further list.entry.words.now list.entry.registers w) }
{
    let k = usize::from(rule / 2);
    if k >= list.pairs {
        return None;
    }
    let p = list.pair(k);
    let mut next = w;
    next.steps = w.steps + 1;
    if rule % 2 == 0 {
        if p.capture != w.at {
            return None;
        }
        next.at = p.launch;
        next.gain = w.gain + p.greatest;
        next.setups = w.setups + 1;
        return Some(next);
    }
    if p.launch != w.at {
        return None;
    }
    next.at = p.capture;
    next.allowance = w.allowance + p.least;
    Some(next)
}

// One step back, along the rule that raised the register last.
fn back(list: DelayList, parents: &[u16; PARENTS], w: Trail) -> Option<Trail>
    requires traced { Traced list.words.now list.registers w }
    requires steps_lt_n { w.steps < list.registers }
    ensures { IfSome result (Further list.entry.words.now list.entry.registers w) }
{
    let at = w.at as usize;
    along(list, parents[at], w)
}

// Where up to n steps back lead from a register.
fn origin(list: DelayList, parents: &[u16; PARENTS], last: u32) -> u32
    requires last_bound { last < registers list.words.now }
    ensures { result < registers list.entry.words.now }
{
    let mut w = Trail::standing(last);
    while w.steps < list.registers {
        match back(list, parents, w) {
            None => return w.at,
            Some(next) => w = next,
        }
    }
    w.at
}

// The least period for which a trail that came back to its start is no contradiction; 0 for any other trail.
fn needed(w: Trail) -> u32
    requires { w.gain ≤ max_period * w.setups }
    ensures { (u : ℕ) → (w.at ≡ w.start → w.gain ≤ w.allowance + w.setups * u) → result ≤ u }
{
    if w.at == w.start {
        if w.allowance < w.gain {
            return (w.gain - w.allowance - 1) / w.setups + 1;
        }
    }
    0
}

// The period that the cycle of parents through a register asks for; 0 if it is on none.
pub fn around(list: DelayList, parents: &[u16; PARENTS], start: u32) -> u32
    requires start_bound { start < registers list.words.now }
    ensures { Bound (pairs list.entry.words.now) result }
{
    let mut w = Trail::standing(start);
    while w.steps < list.registers {
        match back(list, parents, w) {
            None => return 0,
            Some(next) => w = next,
        }
        if w.at == start {
            return needed(w);
        }
    }
    0
}

// A period below which there is no schedule, shown by the cycle of parents behind a register; 0 if there is none.
pub fn cycle(list: DelayList, parents: &[u16; PARENTS], last: u32) -> u32
    requires last_bound { last < registers list.words.now }
    ensures { Bound (pairs list.entry.words.now) result }
{
    let start = origin(list, parents, last);
    around(list, parents, start)
}
