// The registers that are late in every split that works: which they are, and the steps that force them.
// A pair with a greatest delay above the period forces its capture late, a root. From a late register the broken choices of a pair lead
// on to the register across. The contracts cite `specs/Forest.antt`.
#![tactic(auto)]

ghost use Rattle.std.specs.Prelude.{◌≡◌, ◌*◌, ◌≤◌, ◌<◌, length, is_some};
ghost use Rattle.timing.specs.Limits.{max_pairs};
ghost use Rattle.propagate.specs.Store.{Lent};
ghost use Rattle.forced_late.specs.Forest.{number_of, step_of, row_of, from_of, to_of, Marked, Growing};
ghost use Rattle.forced_late.specs.Forest.{Grew, Grows, Along, Forces, WayForces, PairForces, AllForce};
ghost use Rattle.forced_late.specs.Forest.{SettledAs, Roots, Rooted, Seeding, Blank, ForcedLate, ClashTold, ClashAt};

use delay_list::DelayList;
use pair_ends::{ENDS, Ends, FEW_ENDS, FEW_PAIRS, NONE, REGISTERS};
use timing::{PER_PAIR, PER_REGISTER, Pair};

// The choices of a pair, by what its launch and its capture are. Each is a row of the pair.
#[derive(Clone, Copy, Debug, PartialEq, Eq)]
pub enum Row {
    EarlyEarly,
    EarlyLate,
    LateEarly,
    LateLate,
}

impl Row {
    // Its place among the four of a pair.
    pub fn number(self) -> usize
        ensures { result ≡ number_of self }
    {
        match self {
            Row::EarlyEarly => 0,
            Row::EarlyLate => 1,
            Row::LateEarly => 2,
            Row::LateLate => 3,
        }
    }

    // The step that is this choice of pair k.
    pub fn step(self, k: usize) -> usize
        requires { k < max_pairs }
        ensures { result ≡ step_of self k }
    {
        PER_PAIR * k + self.number()
    }
}

// The two ways along a pair: from its launch to its capture, and back.
#[derive(Clone, Copy, Debug, PartialEq, Eq)]
enum Way {
    Ahead,
    Back,
}

impl Way {
    // The choice of the pair that leads from a late register to a late one that way.
    fn row(self) -> Row
        ensures { result ≡ row_of self }
    {
        match self {
            Way::Ahead => Row::LateEarly,
            Way::Back => Row::EarlyLate,
        }
    }

    // The register that it leads from.
    fn from(self, p: Pair) -> usize
        ensures { result ≡ from_of self p }
    {
        match self {
            Way::Ahead => p.launch as usize,
            Way::Back => p.capture as usize,
        }
    }

    // The register that it leads to.
    fn to(self, p: Pair) -> usize
        ensures { result ≡ to_of self p }
    {
        match self {
            Way::Ahead => p.capture as usize,
            Way::Back => p.launch as usize,
        }
    }
}

// Register r is late, at that depth, by that step, if it is not marked yet; whether it was marked now.
fn mark(scratch: &mut [u32], n: usize, r: usize, depth: u32, step: u32) -> bool
    requires { (r < n) × (2 * n ≤ length scratch.old) }
    ensures { Marked n r depth step scratch.old scratch.new result }
{
    if scratch[r] != 0 {
        return false;
    }
    scratch[r] = depth;
    scratch[n + r] = step;
    true
}

// The capture of pair k is a root if early-early is broken.
fn seed_pair(list: DelayList, k: usize, scratch: &mut [u32])
    requires { Roots list.words.now list.registers list.pairs scratch.old × (k < list.pairs) }
    ensures { Rooted list.entry.words.now list.entry.registers k scratch.old scratch.new }
{
    let step = Row::EarlyEarly.step(k);
    if scratch[PER_REGISTER * list.registers + step] == 1 {
        let p = list.pair(k);
        mark(scratch, list.registers, p.capture as usize, 1, step as u32);
    }
}

// The roots.
fn seed(list: DelayList, scratch: &mut [u32])
    requires { Blank list.words.now list.registers list.pairs scratch.old }
    ensures { Seeding list.entry.words.now list.entry.registers scratch.old scratch.new list.entry.pairs }
{
    for k in 0..list.pairs {
        seed_pair(list, k, scratch);
    }
}

// If register `from` is late and the step is broken, register `to` across is late.
fn force(list: DelayList, from: usize, to: usize, step: usize, scratch: &mut [u32]) -> bool
    requires { Growing list.words.now list.registers list.pairs scratch.old × Along list.words.now list.registers from to step }
    ensures { Grows list.entry.words.now list.entry.registers (Forces list.entry.registers from to step) scratch.old scratch.new result }
{
    if scratch[PER_REGISTER * list.registers + step] != 1 {
        return false;
    }
    let depth = scratch[from];
    if depth == 0 {
        return false;
    }
    mark(scratch, list.registers, to, depth + 1, step as u32)
}

// One way along pair k. The register across, if it was marked.
fn follow(list: DelayList, k: usize, way: Way, scratch: &mut [u32]) -> Option<usize>
    requires { Growing list.words.now list.registers list.pairs scratch.old × (k < list.pairs) }
    ensures { Grows list.entry.words.now list.entry.registers
        (WayForces list.entry.words.now list.entry.registers k way) scratch.old scratch.new (is_some result) }
{
    let p = list.pair(k);
    let step = way.row().step(k);
    let across = way.to(p);
    force(list, way.from(p), across, step, scratch).then_some(across)
}

// Both ways along pair k; whether a register was marked.
fn step(list: DelayList, k: usize, scratch: &mut [u32]) -> bool
    requires { Growing list.words.now list.registers list.pairs scratch.old × (k < list.pairs) }
    ensures { Grows list.entry.words.now list.entry.registers (PairForces list.entry.words.now list.entry.registers k) scratch.old scratch.new result }
{
    let first = follow(list, k, Way::Ahead, scratch);
    let second = follow(list, k, Way::Back, scratch);
    first.is_some() | second.is_some()
}

// One sweep over all pairs; whether a register was marked.
fn sweep(list: DelayList, scratch: &mut [u32]) -> bool
    requires { Growing list.words.now list.registers list.pairs scratch.old }
    ensures { Grows list.entry.words.now list.entry.registers (AllForce list.entry.words.now list.entry.registers) scratch.old scratch.new result }
{
    let mut moved = false;
    for k in 0..list.pairs {
        let marked = step(list, k, scratch);
        moved = moved | marked;
    }
    moved
}

// Sweeps until nothing is marked.
fn settle(list: DelayList, scratch: &mut [u32])
    requires { Growing list.words.now list.registers list.pairs scratch.old }
    ensures { SettledAs list.entry.words.now list.entry.registers scratch.old scratch.new }
{
    loop {
        if !sweep(list, scratch) {
            return;
        }
    }
}

// The walk follows each marked register once, along the ends at it, in a line. Its order is a hint, by which the sweep after it finds
// nothing left to mark.
#[derive(Drop)]
struct Line {
    registers: [u16; REGISTERS],
    size: usize,
}

impl Line {
    // A register goes to the end of the line.
    fn join(&mut self, register: usize) {
        if self.size < REGISTERS {
            self.registers[self.size] = (register % REGISTERS) as u16;
            self.size += 1;
        }
    }

    // The roots, in line.
    fn gather(&mut self, n: usize, scratch: &[u32])
        requires { n ≤ length scratch.now }
    {
        for (r, depth) in scratch[..n].iter().enumerate() {
            if *depth != 0 {
                self.join(r);
            }
        }
    }

    // The register at a place of the line.
    fn at(&self, place: usize) -> Option<usize> {
        if place < self.size {
            return Some(usize::from(self.registers[place % REGISTERS]));
        }
        None
    }
}

// Along the ends at register r.
fn visit(list: DelayList, r: usize, ends: Ends, line: &mut Line, scratch: &mut [u32])
    requires { Growing list.words.now list.registers list.pairs scratch.old }
    ensures { Grew list.entry.words.now list.entry.registers scratch.old scratch.new }
{
    for end in ends.at(r) {
        let k = usize::from(end / 2);
        if k >= list.pairs {
            return;
        }
        let way = if end % 2 == 0 { Way::Ahead } else { Way::Back };
        if let Some(across) = follow(list, k, way, scratch) {
            line.join(across);
        }
    }
}

// From the roots on.
fn walk(list: DelayList, before: &mut [u16], scratch: &mut [u32])
    requires { Growing list.words.now list.registers list.pairs scratch.old }
    ensures { Grew list.entry.words.now list.entry.registers scratch.old scratch.new }
{
    let mut lasts = [0u16; REGISTERS];
    let ends = pair_ends::link(list, &mut lasts, before);
    let mut line = Line {
        registers: [0u16; REGISTERS],
        size: 0,
    };
    line.gather(list.registers, scratch);
    for i in 0..list.registers {
        let Some(r) = line.at(i) else {
            return;
        };
        visit(list, r, ends, &mut line, scratch);
    }
}

// The same with places for so many ends. It is not put into its callers, so that only one of the two stands on the stack.
#[inline(never)]
fn walk_ends<const PLACES: usize>(list: DelayList, scratch: &mut [u32])
    requires { (PLACES ≤ 2 * max_pairs) × Growing list.words.now list.registers list.pairs scratch.old }
    ensures { Grew list.entry.words.now list.entry.registers scratch.old scratch.new }
{
    let mut before = [NONE; PLACES];
    walk(list, &mut before, scratch);
}

// The same with places for the ends of few pairs, or for those of the most.
fn walk_list(list: DelayList, scratch: &mut [u32])
    requires { Growing list.words.now list.registers list.pairs scratch.old }
    ensures { Grew list.entry.words.now list.entry.registers scratch.old scratch.new }
{
    if list.pairs <= FEW_PAIRS {
        walk_ends::<FEW_ENDS>(list, scratch);
    } else {
        walk_ends::<ENDS>(list, scratch);
    }
}

// All registers that are forced late.
pub fn force_late(list: DelayList, scratch: &mut [u32])
    requires { Blank list.words.now list.registers list.pairs scratch.old }
    ensures { ForcedLate list.entry.words.now list.entry.registers scratch.old scratch.new }
{
    seed(list, scratch);
    walk_list(list, scratch);
    settle(list, scratch);
}

// Whether pair k asks for an early launch that is late.
fn clashes(list: DelayList, k: usize, scratch: &[u32]) -> bool
    requires { Lent list.words.now list.registers list.pairs scratch.now × (k < list.pairs) }
    ensures { ClashTold result list.entry.words.now list.entry.registers scratch.now k }
{
    let last = Row::LateLate.step(k);
    if scratch[PER_REGISTER * list.registers + last] != 1 {
        return false;
    }
    let p = list.pair(k);
    if scratch[p.launch as usize] == 0 {
        return false;
    }
    true
}

// The first such pair, where there is one.
pub fn clash(list: DelayList, scratch: &[u32]) -> Option<usize>
    requires { Lent list.words.now list.registers list.pairs scratch.now }
    ensures { ClashAt list.entry.words.now list.entry.registers list.entry.pairs scratch.now result }
{
    for k in 0..list.pairs {
        if clashes(list, k, scratch) {
            return Some(k);
        }
    }
    None
}
