// The marks of the registers, and what the broken choices of one pair force on them.
// The contracts cite `specs/Choices.antt` and `specs/Marks.antt` of the crate `split_laws`.
#![tactic(auto)]

ghost use Rattle.std.specs.Prelude.{◌≡◌, ◌≤◌, ◌<◌, length};
ghost use Rattle.timing.specs.Rules.{pair_met, InRange};
ghost use Rattle.split_laws.specs.Split.{time_of};
ghost use Rattle.split_laws.specs.Choices.{late, is_late, opposite, row_launch, row_capture, flag_at};
ghost use Rattle.split_laws.specs.Marks.{Forced, Followed, Applied, Seeded, Settles};

use split_laws::Change;
use timing::Pair;

// A mark is 0 where nothing is known of a register's choice. Marks stand in the scratch that a caller lends, so they are numbers.
pub const EARLY: u32 = 1;

pub const LATE: u32 = 2;

// The other choice: late for early, early for late.
fn opposite(choice: u32) -> u32
    requires { choice ≤ late }
    ensures { result ≡ opposite choice }
{
    EARLY + LATE - choice
}

// The choice of the launch in row k; rows are early-early 0, early-late 1, late-early 2, late-late 3.
fn launch_choice(k: usize) -> u32
    requires { k < 4 }
    ensures { result ≡ row_launch k }
{
    if k < 2 { EARLY } else { LATE }
}

// The choice of the capture in row k.
fn capture_choice(k: usize) -> u32
    requires { k < 4 }
    ensures { result ≡ row_capture k }
{
    if k % 2 == 0 { EARLY } else { LATE }
}

// Register r is to have mark v.
fn force(marks: &mut [u32], r: usize, v: u32) -> Change
    requires { (r < length marks.old) × (v ≡ 0 → ⊥) }
    ensures { Forced r v marks.old marks.new result }
{
    let m = marks[r];
    if m == v {
        return Change::Settled;
    }
    if m == 0 {
        marks[r] = v;
        return Change::Changed;
    }
    Change::Clash
}

// A mark `when` at `from` forces the mark `then` at `to`.
fn follow(marks: &mut [u32], from: usize, when: u32, to: usize, then: u32) -> Change
    requires { (from < length marks.old) × (to < length marks.old) × (when ≡ 0 → ⊥) × (then ≡ 0 → ⊥) }
    ensures { Followed from when to then marks.old marks.new result }
{
    if marks[from] == when {
        return force(marks, to, then);
    }
    Change::Settled
}

// Row k for launch a and capture b, where its flag says that its choice is broken: the launch's choice forces the opposite
// of the capture's, the capture's choice the opposite of the launch's.
fn apply(marks: &mut [u32], a: usize, b: usize, k: usize, flag: u32) -> Change
    requires { (a < length marks.old) × (b < length marks.old) × (k < 4) }
    ensures { Applied a b k flag marks.old marks.new result }
{
    if flag != 1 {
        return Change::Settled;
    }
    let launch = launch_choice(k);
    let capture = capture_choice(k);
    let first = follow(marks, a, launch, b, opposite(capture));
    let second = follow(marks, b, capture, a, opposite(launch));
    first.max(second)
}

// The capture b is late where the flag says that early, early is broken: a late launch does not help.
fn seed(marks: &mut [u32], b: usize, flag: u32) -> Change
    requires { b < length marks.old }
    ensures { Seeded b flag marks.old marks.new result }
{
    if flag != 1 {
        return Change::Settled;
    }
    force(marks, b, LATE)
}

// All that the broken choices of one pair force, by the flags of its four rows.
pub fn settle(marks: &mut [u32], pair: Pair, flags: [u32; 4]) -> Change
    requires { InRange (length marks.old) pair }
    ensures { Settles pair flags marks.old marks.new result }
{
    let launch = pair.launch as usize;
    let capture = pair.capture as usize;
    let mut all = Change::Settled;
    for k in 0..4 {
        let o = apply(marks, launch, capture, k, flags[k]);
        all = all.max(o);
    }
    let last = seed(marks, capture, flags[0]);
    all.max(last)
}

// The time of a register with this mark: late is the offset, all else 0.
pub fn time_of(offset: u32, mark: u32) -> u32
    ensures { result ≡ time_of offset (is_late mark) }
{
    if mark == LATE { offset } else { 0 }
}

// Both rules of a pair.
fn meets(pair: Pair, period: u32, launch_time: u32, capture_time: u32) -> bool
    ensures { result ≡ pair_met pair period launch_time capture_time }
{
    pair.setup_margin(period, launch_time, capture_time) >= 0
        && pair.hold_margin(launch_time, capture_time) >= 0
}

// 1 where the choice of row k breaks a rule of the pair, else 0.
pub fn broken_flag(pair: Pair, period: u32, offset: u32, k: usize) -> u32
    requires { k < 4 }
    ensures { result ≡ flag_at period offset pair k }
{
    let a = time_of(offset, launch_choice(k));
    let b = time_of(offset, capture_choice(k));
    u32::from(!meets(pair, period, a, b))
}
