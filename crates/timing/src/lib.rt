// A pair of registers with the delays of the logic between them, and the margins of its two timing rules.
// The contracts cite `specs/Rules.antt`; the limits stand again, one by one, in `specs/Limits.antt`.
#![tactic(auto)]

ghost use Rattle.std.specs.Prelude.{◌≡◌, ◌-◌, ◌^◌, ◌<◌, max, min};
ghost use Rattle.std.proofs.Math.IntN.{sub_ℕ};
ghost use Rattle.timing.specs.Limits.{scratch_places};
ghost use Rattle.timing.specs.Rules.{setup_margin, hold_margin};

// The limits of a delay list and of a call, each named once. Times are in picoseconds.
pub const MAX_REGISTERS: u32 = 512;

pub const MAX_PAIRS: usize = 2_048;

pub const MAX_DELAY: u32 = 1_000_000;

// The setup and the hold need of a register.
pub const MAX_NEED: u32 = 9_999;

// The greatest delay with the longest setup.
pub const MAX_PERIOD: u32 = MAX_DELAY + MAX_NEED;

pub const MAX_OFFSET: u32 = MAX_PERIOD;

// Each register but one may be a longest period later than another.
pub const MAX_TIMING: u32 = (MAX_REGISTERS - 1) * MAX_PERIOD;

// The places of scratch for one register, and for one pair.
pub const PER_REGISTER: usize = 6;

pub const PER_PAIR: usize = 4;

// The places of scratch that the largest list takes.
pub const MAX_SCRATCH: usize = PER_REGISTER * MAX_REGISTERS as usize + PER_PAIR * MAX_PAIRS;

// The launch and the capture register, and the least and the greatest delay between them.
#[derive(Clone, Copy, Debug, PartialEq, Eq)]
pub struct Pair {
    pub launch: u32,
    pub capture: u32,
    pub least: u32,
    pub greatest: u32,
}

// The right side of a rule minus its left side.
fn margin(right: u64, left: u64) -> i64
    requires { (right < 2 ^ 63) × (left < 2 ^ 63) }
    ensures { result ≡ sub_ℕ right left }
{
    (right as i64) - (left as i64)
}

// A rule is met where its margin is not negative.
impl Pair {
    // Setup at a period, for the times of the launch and of the capture register.
    pub fn setup_margin(self, period: u32, launch_time: u32, capture_time: u32) -> i64
        ensures { result ≡ setup_margin self period launch_time capture_time }
    {
        margin(
            (capture_time as u64) + (period as u64),
            (launch_time as u64) + (self.greatest as u64),
        )
    }

    // Hold, for the times of the launch and of the capture register.
    pub fn hold_margin(self, launch_time: u32, capture_time: u32) -> i64
        ensures { result ≡ hold_margin self launch_time capture_time }
    {
        margin(
            (launch_time as u64) + (self.least as u64),
            capture_time as u64,
        )
    }
}

// The places of scratch that a split or a plan of n registers and m pairs takes.
pub fn scratch_places(n: usize, m: usize) -> usize
    requires { scratch_places n m < 2 ^ 64 }
    ensures { result ≡ scratch_places n m }
{
    PER_REGISTER * n + PER_PAIR * m
}

pub fn larger(a: u32, b: u32) -> u32
    ensures { result ≡ max a b }
{
    a.max(b)
}

pub fn smaller(a: u32, b: u32) -> u32
    ensures { result ≡ min a b }
{
    a.min(b)
}

// a - b, or 0 where b is more.
pub fn less(a: u32, b: u32) -> u32
    ensures { result ≡ a - b }
{
    a.saturating_sub(b)
}
