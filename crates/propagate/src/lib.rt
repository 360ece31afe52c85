// Whether some split works at a period and an offset, for a usable list; if so, the marks are those of the first.
// The contracts cite `specs/Store.antt` (what the scratch holds) and `specs/Passes.antt` (what a pass promises).
#![tactic(auto)]

ghost use Rattle.std.specs.Prelude.{◌≡◌, ◌+◌, ◌*◌, ◌≤◌, ◌<◌, length, take, drop, ◌++◌};
ghost use Rattle.buffers.specs.Over.{over};
ghost use Rattle.timing.specs.Limits.{per_pair};
ghost use Rattle.split_laws.specs.Split.{timings};
ghost use Rattle.split_laws.specs.Marks.{split_of};
ghost use Rattle.propagate.specs.Store.{flags_of, flags_to, four_at, Lent, Prepared, Decided};
ghost use Rattle.propagate.specs.Passes.{Pass, PairClosed, AllClosed, Propagated};

use delay_list::DelayList;
use split_laws::Change;
use timing::{PER_PAIR, PER_REGISTER, Pair};

// The flags of a pair, from the place of the first on.
fn flags_at(scratch: &[u32], at: usize) -> [u32; PER_PAIR]
    requires { at + per_pair ≤ length scratch.now }
    ensures { result ≡ four_at scratch.now at }
{
    [
        scratch[at],
        scratch[at + 1],
        scratch[at + 2],
        scratch[at + 3],
    ]
}

// What pair k forces is followed in the marks.
fn step(list: DelayList, k: usize, scratch: &mut [u32]) -> Change
    requires { Lent list.words.now list.registers list.pairs scratch.old × (k < list.pairs) }
    ensures { Pass list.entry.words.now list.entry.registers (PairClosed list.entry.words.now k) scratch.old scratch.new result }
{
    let n = list.registers;
    let flags = flags_at(scratch, PER_REGISTER * n + PER_PAIR * k);
    marks::settle(&mut scratch[..n], list.pair(k), flags)
}

// One pass over all pairs.
fn sweep(list: DelayList, down: bool, scratch: &mut [u32]) -> Change
    requires { Lent list.words.now list.registers list.pairs scratch.old }
    ensures { Pass list.entry.words.now list.entry.registers (AllClosed list.entry.words.now) scratch.old scratch.new result }
{
    let mut all = Change::Settled;
    for i in 0..list.pairs {
        let o = step(list, delay_list::place(list.pairs, i, down), scratch);
        all = all.max(o);
    }
    all
}

// Passes up and down the list until nothing changes: true where no pair forces more, false where a register is forced both ways.
fn propagate(list: DelayList, scratch: &mut [u32]) -> bool
    requires { Lent list.words.now list.registers list.pairs scratch.old }
    ensures { Propagated list.entry.words.now list.entry.registers scratch.old scratch.new result }
{
    let mut down = false;
    loop {
        match sweep(list, down, scratch) {
            Change::Settled => return true,
            Change::Clash => return false,
            Change::Changed => {}
        }
        down = !down;
    }
}

// The broken choices of a pair, in four places from `at` on.
fn record_pair(pair: Pair, period: u32, offset: u32, at: usize, flags: &mut [u32])
    requires { at + per_pair ≤ length flags.old }
    ensures { flags.new ≡ take at flags.old ++ (flags_of period offset pair ++ drop (at + per_pair) flags.old) }
{
    for k in 0..PER_PAIR {
        flags[at + k] = marks::broken_flag(pair, period, offset, k);
    }
}

// The broken choices of all pairs.
fn record_broken(list: DelayList, period: u32, offset: u32, flags: &mut [u32])
    requires { per_pair * list.pairs ≤ length flags.old }
    ensures { flags.new ≡ over (flags_to period offset list.entry.words.now list.entry.pairs) flags.old }
{
    for k in 0..list.pairs {
        record_pair(list.pair(k), period, offset, PER_PAIR * k, flags);
    }
}

// Blank marks, and the broken choices of the pairs in the part of the scratch from place 6n on.
pub fn prepare(list: DelayList, period: u32, offset: u32, scratch: &mut [u32])
    requires { Lent list.words.now list.registers list.pairs scratch.old }
    ensures { Prepared period offset list.entry.words.now list.entry.registers scratch.old scratch.new }
{
    buffers::clear(scratch, list.registers);
    let cut = PER_REGISTER * list.registers;
    record_broken(list, period, offset, &mut scratch[cut..]);
}

// Whether some split works; if so the marks are those of the first.
pub fn decide(list: DelayList, period: u32, offset: u32, scratch: &mut [u32]) -> bool
    requires { Lent list.words.now list.registers list.pairs scratch.old }
    ensures { Decided period offset list.entry.words.now list.entry.registers scratch.old scratch.new result }
{
    prepare(list, period, offset, scratch);
    propagate(list, scratch)
}

// The timings of the first n marks.
pub fn write_split(marks: &[u32], n: usize, offset: u32, answer: &mut [u32])
    requires { (n ≤ length marks.now) × (n ≤ length answer.old) }
    ensures { answer.new ≡ over (timings offset (split_of (take n marks.now))) answer.old }
{
    for i in 0..n {
        answer[i] = marks::time_of(offset, marks[i]);
    }
}
