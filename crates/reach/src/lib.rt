// Up to which period each register of a usable list is forced late, and with it the two-timing period and its split.
// No period is tried: the reaches are raised pair by pair until none rises any more.
// The contracts cite `specs/Settling.antt`, and the definitions of `plan_laws` (reaches and the plan).
#![tactic(auto)]

ghost use Rattle.std.specs.Prelude.{◌≡◌, ◌||◌, ◌+◌, ◌<◌, max, min, ltb, length};
ghost use Rattle.list_format.specs.Lists.{pairs};
ghost use Rattle.free_laws.specs.Free.{common};
ghost use Rattle.free_laws.specs.Constraint.{Bound};
ghost use Rattle.split_laws.specs.Split.{time_of, timings};
ghost use Rattle.plan_laws.specs.Reach.{reach_of, ahead, behind, reach_period, late_above, NoneBelow, Raised, ReachStep};
ghost use Rattle.reach.specs.Settling.{PairReaching, Reaching, Guided, ClosedAt, ClosedAll, Swept, Reached};

use delay_list::DelayList;
use pair_ends::Ends;
use register_heap::Heap;
use timing::{Pair, larger, smaller};

// Register r has at least the reach v; whether that raised it.
fn raise(reach: &mut [u32], r: usize, v: u32) -> bool
    requires { r < length reach.old }
    ensures { Raised r v reach.old reach.new result }
{
    if reach[r] < v {
        reach[r] = v;
        return true;
    }
    false
}

// Below its greatest delay a pair needs its capture late; below half of that and the common period, one with a late launch does.
fn raise_capture(p: Pair, top: u32, reach: &mut [u32]) -> bool
    requires { PairReaching p top reach.old }
    ensures { Raised p.capture (ahead top p reach.old) reach.old reach.new result }
{
    let half = (top + p.greatest + 1) / 2;
    let v = larger(p.greatest, smaller(reach[p.launch as usize], half));
    raise(reach, p.capture as usize, v)
}

// Below the common period less its least delay, a pair with a late capture needs its launch late.
fn raise_launch(p: Pair, top: u32, reach: &mut [u32]) -> bool
    requires { PairReaching p top reach.old }
    ensures { Raised p.launch (behind top p reach.old) reach.old reach.new result }
{
    let v = smaller(reach[p.capture as usize], top - p.least);
    raise(reach, p.launch as usize, v)
}

// The period below which a pair lets no split work.
fn asked(p: Pair, reach: &[u32]) -> u32
    requires { p.launch < length reach.now }
    ensures { result ≡ min (reach_of reach.now p.launch) p.greatest }
{
    smaller(reach[p.launch as usize], p.greatest)
}

// What came of a raise along a pair: the register that was raised, if it was, and the period that the pair asks for.
#[derive(Clone, Copy)]
struct Along {
    raised: Option<usize>,
    asks: u32,
}

// A list with its common period.
#[derive(Clone, Copy)]
struct Listed<'a> {
    list: DelayList<'a>,
    top: u32,
}

impl<'a> Listed<'a> {
    // Both ends of pair k; whether one was raised.
    fn step(self, k: usize, reach: &mut [u32]) -> bool
        requires { Reaching self.list.words.now self.list.pairs self.top reach.old × (k < self.list.pairs) }
        ensures { ReachStep self.entry.top (pairs self.entry.list.words.now) (ClosedAt self.entry.list.words.now self.entry.top k) reach.old reach.new result }
    {
        let p = self.list.pair(k);
        let first = raise_capture(p, self.top, reach);
        let second = raise_launch(p, self.top, reach);
        first | second
    }

    // One sweep, up or down the list; whether it raised anything.
    fn sweep(self, down: bool, reach: &mut [u32]) -> bool
        requires { Reaching self.list.words.now self.list.pairs self.top reach.old }
        ensures { ReachStep self.entry.top (pairs self.entry.list.words.now) (ClosedAll self.entry.list.words.now self.entry.top) reach.old reach.new result }
    {
        let mut moved = false;
        for i in 0..self.list.pairs {
            let k = delay_list::place(self.list.pairs, i, down);
            let o = self.step(k, reach);
            moved |= o;
        }
        moved
    }

    // Sweeps up and down the list until nothing is raised.
    fn settle(self, reach: &mut [u32])
        requires { Reaching self.list.words.now self.list.pairs self.top reach.old }
        ensures { Swept self.entry.list.words.now self.entry.list.pairs self.entry.top reach.new }
    {
        let mut down = false;
        while self.sweep(down, reach) {
            down = !down;
        }
    }

    // The longest period that a pair asks for, or 1.
    fn period(self, reach: &[u32]) -> u32
        requires { length reach.now ≡ self.list.registers }
        ensures { result ≡ reach_period 1 (pairs self.entry.list.words.now) reach.now }
    {
        let mut most = 1;
        for k in 0..self.list.pairs {
            let p = self.list.pair(k);
            most = larger(most, asked(p, reach));
        }
        most
    }

    // Every register has at least the reach v, below which no split works.
    fn lift(self, v: u32, reach: &mut [u32])
        requires { Reaching self.list.words.now self.list.pairs self.top reach.old × NoneBelow self.top (pairs self.list.words.now) v }
        ensures { Reaching self.entry.list.words.now self.entry.list.pairs self.entry.top reach.new }
    {
        for r in 0..reach.len() {
            raise(reach, r, v);
        }
    }

    // From an end of pair k the register at the other end is raised.
    fn cross(self, k: usize, launch: bool, reach: &mut [u32]) -> Along
        requires { Reaching self.list.words.now self.list.pairs self.top reach.old × (k < self.list.pairs) }
        ensures { Guided self.entry.list.words.now self.entry.list.pairs self.entry.top reach.new result.asks }
    {
        let p = self.list.pair(k);
        if launch {
            let raised = raise_capture(p, self.top, reach);
            let asks = asked(p, reach);
            return Along {
                raised: raised.then_some(p.capture as usize),
                asks,
            };
        }
        let raised = raise_launch(p, self.top, reach);
        Along {
            raised: raised.then_some(p.launch as usize),
            asks: 0,
        }
    }

    // Every capture is raised; the longest period that a pair was seen to ask for.
    fn begin(self, reach: &mut [u32]) -> u32
        requires { Reaching self.list.words.now self.list.pairs self.top reach.old }
        ensures { Guided self.entry.list.words.now self.entry.list.pairs self.entry.top reach.new result }
    {
        let mut most = 0;
        for k in 0..self.list.pairs {
            let a = self.cross(k, true, reach);
            most = larger(most, a.asks);
        }
        most
    }
}

// The guide raises reaches in the order of a heap, the largest first. Its order is a hint, by which the sweeps find nothing left
// to raise; each stays a reach.

// The longest period that a pair was seen to ask for, and the registers that wait to be visited.
#[derive(Drop)]
struct Waiting {
    most: u32,
    heap: Heap,
}

impl Waiting {
    // Register r, if its reach is above the longest period seen, goes in the heap.
    fn join(&mut self, reach: &[u32], r: usize)
        ensures { self.new.most ≡ self.old.most }
    {
        if r < reach.len() && reach[r] > self.most {
            self.heap.put(reach, r);
        }
    }

    // What the pair asks for is seen, and a register that was raised joins the heap.
    fn enter(&mut self, a: Along, reach: &[u32])
        ensures { self.new.most ≡ max self.old.most a.asks }
    {
        self.most = larger(self.most, a.asks);
        if let Some(r) = a.raised {
            self.join(reach, r);
        }
    }

    // The registers with a reach above the longest period seen go in the heap.
    fn gather(&mut self, reach: &[u32])
        ensures { self.new.most ≡ self.old.most }
    {
        for r in 0..reach.len() {
            self.join(reach, r);
        }
    }

    // Along the ends at register r, from each to the register across.
    fn visit(&mut self, listed: Listed, ends: Ends, r: usize, reach: &mut [u32])
        requires { Guided listed.list.words.now listed.list.pairs listed.top reach.old self.old.most }
        ensures { Guided listed.entry.list.words.now listed.entry.list.pairs listed.entry.top reach.new self.new.most }
    {
        for end in ends.at(r) {
            let k = usize::from(end) / 2;
            if k >= listed.list.pairs {
                return;
            }
            let a = listed.cross(k, end % 2 == 0, reach);
            self.enter(a, reach);
        }
    }

    // The register in the heap with the largest reach, if that is above the period seen.
    fn largest(&self, reach: &[u32]) -> Option<usize> {
        let r = self.heap.largest()?;
        if r < reach.len() && reach[r] > self.most {
            return Some(r);
        }
        None
    }

    // Registers are taken from the heap and visited, each once: no raise is to above the reach of the one that was taken.
    fn follow(&mut self, listed: Listed, ends: Ends, reach: &mut [u32])
        requires { Guided listed.list.words.now listed.list.pairs listed.top reach.old self.old.most }
        ensures { Guided listed.entry.list.words.now listed.entry.list.pairs listed.entry.top reach.new self.new.most }
    {
        for _ in 0..reach.len() {
            let Some(r) = self.largest(reach) else {
                return;
            };
            self.heap.remove(reach, r);
            self.visit(listed, ends, r, reach);
        }
    }
}

// With no more pairs than this part of the registers, sweeps take less time than a guide, which looks at every register.
const SPARSE: usize = 8;

// The heap from its filling until nothing in it is above the period seen; none where pairs are few.
fn guide(listed: Listed, ends: Ends, reach: &mut [u32]) -> u32
    requires { Reaching listed.list.words.now listed.list.pairs listed.top reach.old }
    ensures { Guided listed.entry.list.words.now listed.entry.list.pairs listed.entry.top reach.new result }
{
    if listed.list.pairs <= reach.len() / SPARSE {
        return 0;
    }
    let mut waiting = Waiting {
        most: listed.begin(reach),
        heap: Heap::empty(),
    };
    waiting.gather(reach);
    waiting.follow(listed, ends, reach);
    waiting.most
}

// The two-timing period of a usable list with the common period `top` and a free period above `floor`; the reaches are left
// in the n places lent. The ends of the pairs are a hint.
pub fn two_period(list: DelayList, top: u32, floor: u32, ends: Ends, reach: &mut [u32]) -> u32
    requires size { length reach.old ≡ list.registers }
    requires top_is { top ≡ common (pairs list.words.now) }
    requires below { Bound (pairs list.words.now) (floor + 1) }
    ensures { Reached list.entry.words.now reach.new result }
{
    let n = reach.len();
    buffers::level(reach, n, floor);
    let listed = Listed { list, top };
    let most = guide(listed, ends, reach);
    listed.lift(most, reach);
    listed.settle(reach);
    listed.period(reach)
}

// The offset where the reach is above the period, else 0.
fn time_of(offset: u32, two: u32, reach: u32) -> u32
    ensures { result ≡ time_of offset (ltb two reach) }
{
    if two < reach { offset } else { 0 }
}

// The timings of the split that reaches give, in the places of the reaches.
pub fn write_split(reach: &mut [u32], two: u32, offset: u32)
    ensures { reach.new ≡ timings offset (late_above two reach.old) }
{
    for i in 0..reach.len() {
        reach[i] = time_of(offset, two, reach[i]);
    }
}
