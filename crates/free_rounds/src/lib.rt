// Raises a schedule as far as the rules of a delay list ask, one round over the pairs at a time, in place.
// The contracts cite `specs/Raise.antt` and the laws of `free_laws`.
#![tactic(auto)]

ghost use Rattle.std.specs.Prelude.{◌≡◌, ◌-◌, ◌<◌, ◌≤◌, length};
ghost use Rattle.timing.specs.Limits.{max_period, max_timing};
ghost use Rattle.list_format.specs.Lists.{pairs};
ghost use Rattle.free_laws.specs.Constraint.{constraints};
ghost use Rattle.free_laws.specs.Raise.{raise_to, relax_to, Risen, RoundTo};
ghost use Rattle.free_rounds.specs.Raise.{Raisable, Relaxable, Raising};

use delay_list::DelayList;
use timing::{Pair, smaller};

// Places for the parent of each register: the rule that raised it last, 2k for setup of pair k and 2k + 1 for its hold.
pub const PARENTS: usize = timing::MAX_REGISTERS as usize;

// The parent of a register that no rule has raised.
pub const NO_RULE: u16 = 0xFFFF;

// Register r raised until it is at least v with the allowance added, but not past the limit of a timing.
// The answer is the register raised last.
fn raise(
    x: &mut [u32],
    parents: &mut [u16; PARENTS],
    r: usize,
    v: u32,
    allowance: u32,
    rule: u16,
    last: usize,
) -> usize
    requires raisable { Raisable x.old }
    requires r_in_bounds { r < length x.old }
    requires allowance_le_max_period { allowance ≤ max_period }
    ensures { x.new ≡ raise_to max_timing r (v - allowance) x.old }
{
    if x[r] + allowance < v {
        x[r] = smaller(timing::MAX_TIMING, v - allowance);
        parents[r] = rule;
        return r;
    }
    last
}

// Both rules of pair k at a period: the capture register is raised as far as setup asks, then the launch register as
// far as hold asks. The answer is the register raised last.
fn relax(
    x: &mut [u32],
    parents: &mut [u16; PARENTS],
    p: Pair,
    period: u32,
    k: usize,
    last: usize,
) -> usize
    requires { Relaxable x.old p period k }
    ensures { x.new ≡ relax_to max_timing period p x.old }
{
    let rule = 2 * (k as u16);
    let a = p.launch as usize;
    let b = p.capture as usize;
    let from = x[a];
    let first = raise(x, parents, b, from + p.greatest, period, rule, last);
    let to = x[b];
    raise(x, parents, a, to, p.least, rule + 1, first)
}

// One round over the pairs, up or down the list. The answer is the register raised last, or the count of registers
// if none was: a hint, which is tested where it is used.
pub fn round(
    list: DelayList,
    x: &mut [u32],
    parents: &mut [u16; PARENTS],
    period: u32,
    down: bool,
) -> usize
    requires { Raising list.words.now list.pairs period x.old }
    ensures { RoundTo max_timing (constraints period (pairs list.entry.words.now)) x.old x.new }
{
    let step = delay_list::walk_step(down);
    let mut last = x.len();
    let mut k = delay_list::walk_start(list.pairs, down);
    for i in 0..list.pairs {
        let p = list.pair(k);
        last = relax(x, parents, p, period, k, last);
        k = k.wrapping_add(step);
    }
    last
}

// One rule alone, 2k for setup of pair k and 2k + 1 for its hold, if the list has it. The answer is the register that it raised,
// or the count of registers if it raised none.
pub fn apply(
    list: DelayList,
    x: &mut [u32],
    parents: &mut [u16; PARENTS],
    period: u32,
    rule: u16,
) -> usize
    requires { Raising list.words.now list.pairs period x.old }
    ensures { Risen max_timing (constraints period (pairs list.entry.words.now)) x.old x.new }
{
    let none = x.len();
    let k = (rule / 2) as usize;
    if k >= list.pairs {
        return none;
    }
    let p = list.pair(k);
    let a = p.launch as usize;
    let b = p.capture as usize;
    if rule % 2 == 0 {
        let from = x[a];
        return raise(x, parents, b, from + p.greatest, period, rule, none);
    }
    let to = x[b];
    raise(x, parents, a, to, p.least, rule, none)
}
