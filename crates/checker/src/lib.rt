// Checks a given schedule against a delay list: by how much each pair meets both rules, the smallest margin of all, and whether each pair
// meets them; if not, which breaks one first. The contracts cite `specs/Check.antt`.
#![tactic(auto)]

ghost use Rattle.std.specs.Prelude.{◌≡◌, ◌<◌, length};
ghost use Rattle.timing.specs.Rules.{admissible};
ghost use Rattle.refusals.specs.Checks.{first_fault};
ghost use Rattle.list_format.specs.Lists.{pairs};
ghost use Rattle.checker.specs.Check.{smallest_at, met_at, first_broken, broken_rule, walked_on, Walked, answer_for};
ghost use Rattle.checker.specs.Check.{some_above, timing_checks, CheckedAs};

use delay_list::DelayList;
use refusals::{Refusal, Refused};

#[derive(Clone, Copy, Debug, PartialEq, Eq)]
pub enum Rule {
    Setup,
    Hold,
}

// A margin, with the pair and the rule that have it.
#[derive(Clone, Copy, Debug, PartialEq, Eq)]
pub struct Smallest {
    pub margin: i64,
    pub pair: usize,
    pub rule: Rule,
}

// What checking comes to: a list without pairs, which every schedule meets; each pair meets both rules; or the first pair that does not and
// the rule that it breaks, setup named before hold. Pairs come with the smallest margin of all.
#[derive(Clone, Copy, Debug, PartialEq, Eq)]
pub enum Checking {
    NoPairs,
    Admissible(Smallest),
    Broken(usize, Rule, Smallest),
}

// What a walk has come to: the smallest margin, and where that is negative the first pair that breaks a rule. Its sign tells
// whether there is one.
#[derive(Clone, Copy)]
struct Walk {
    smallest: Smallest,
    broken: usize,
}

// Whether pair k meets both rules.
fn meets(list: DelayList, k: usize, period: u32, timings: &[u32]) -> bool
    requires below { k < list.pairs }
    requires timings_len { length timings.now ≡ list.registers }
    ensures { result ≡ met_at list.entry.words.now period timings.now k }
{
    let p = list.pair(k);
    let a = p.launch as usize;
    let b = p.capture as usize;
    if p.setup_margin(period, timings[a], timings[b]) < 0 {
        return false;
    }
    p.hold_margin(timings[a], timings[b]) >= 0
}

// The first pair that does not; their count if each does.
fn first_broken(list: DelayList, period: u32, timings: &[u32]) -> usize
    requires { length timings.now ≡ list.registers }
    ensures { result ≡ first_broken list.entry.words.now period timings.now }
{
    for k in 0..list.pairs {
        if !meets(list, k, period, timings) {
            return k;
        }
    }
    list.pairs
}

// Whether each pair of a usable list meets both rules.
pub fn passes(list: DelayList, period: u32, timings: &[u32]) -> bool
    requires { length timings.now ≡ list.registers }
    ensures { result ≡ admissible period (pairs list.entry.words.now) timings.now }
{
    first_broken(list, period, timings) == list.pairs
}

// The smaller margin of pair k, setup's if both are the same.
fn smaller_margin(list: DelayList, k: usize, period: u32, timings: &[u32]) -> Smallest
    requires below { k < list.pairs }
    requires timings_len { length timings.now ≡ list.registers }
    ensures { result ≡ smallest_at list.entry.words.now period timings.now k }
{
    let p = list.pair(k);
    let a = timings[p.launch as usize];
    let b = timings[p.capture as usize];
    let setup = p.setup_margin(period, a, b);
    let hold = p.hold_margin(a, b);
    if hold < setup {
        return Smallest {
            margin: hold,
            pair: k,
            rule: Rule::Hold,
        };
    }
    Smallest {
        margin: setup,
        pair: k,
        rule: Rule::Setup,
    }
}

// The walk with one pair more, whose smaller margin is x.
fn walked_on(walk: Walk, x: Smallest) -> Walk
    ensures { result ≡ walked_on walk x }
{
    if x.margin >= walk.smallest.margin {
        return walk;
    }
    if walk.smallest.margin < 0 {
        return Walk {
            smallest: x,
            ..walk
        };
    }
    Walk {
        smallest: x,
        broken: x.pair,
    }
}

// The walk over all pairs.
fn walked(list: DelayList, period: u32, timings: &[u32]) -> Walk
    requires timings_len { length timings.now ≡ list.registers }
    requires some { 0 < list.pairs }
    ensures { Walked list.entry.words.now period timings.now list.entry.pairs result }
{
    let mut walk = Walk {
        smallest: smaller_margin(list, 0, period, timings),
        broken: 0,
    };
    for k in 1..list.pairs {
        walk = walked_on(walk, smaller_margin(list, k, period, timings));
    }
    walk
}

// The rule that pair k breaks, if it breaks one.
fn broken_rule(list: DelayList, k: usize, period: u32, timings: &[u32]) -> Rule
    requires below { k < list.pairs }
    requires timings_len { length timings.now ≡ list.registers }
    ensures { result ≡ broken_rule list.entry.words.now period timings.now k }
{
    let p = list.pair(k);
    let a = p.launch as usize;
    let b = p.capture as usize;
    if p.setup_margin(period, timings[a], timings[b]) >= 0 {
        return Rule::Hold;
    }
    Rule::Setup
}

// The answer for a usable list.
fn checked(list: DelayList, period: u32, timings: &[u32]) -> Checking
    requires { length timings.now ≡ list.registers }
    ensures { result ≡ answer_for list.entry.words.now period timings.now }
{
    if list.pairs == 0 {
        return Checking::NoPairs;
    }
    let walk = walked(list, period, timings);
    let smallest = walk.smallest;
    if smallest.margin >= 0 {
        return Checking::Admissible(smallest);
    }
    let rule = broken_rule(list, walk.broken, period, timings);
    Checking::Broken(walk.broken, rule, smallest)
}

// Whether some timing is above the limit.
fn above_limit(timings: &[u32]) -> bool
    ensures { result ≡ some_above timings.now }
{
    timings.iter().any(|&x| x > timing::MAX_TIMING)
}

// 3: what is wrong with the call, for a list of n registers.
#[tactic(auto, unfolding(refusals::specs::Checks::or_check, refusals::specs::Checks::fault_after))]
fn call_fault(n: usize, period: u32, timings: &[u32]) -> Result<(), Refused>
    ensures { result ≡ first_fault (timing_checks n period timings.now) }
{
    refusals::check(period == 0, Refusal::Call, 0)?;
    refusals::check(period > timing::MAX_PERIOD, Refusal::Call, 0)?;
    refusals::check(timings.len() != n, Refusal::Call, 0)?;
    refusals::check(above_limit(timings), Refusal::Call, 0)
}

// Checks a schedule at a period. Refusals 11 to 20 of the list, then 3: the period or a timing out of range, or not a
// timing for each register.
pub fn check(words: &[u32], period: u32, timings: &[u32]) -> Result<Checking, Refused>
    ensures { CheckedAs words.now period timings.now result }
{
    let list = DelayList::accepted(words)?;
    call_fault(list.registers, period, timings)?;
    Ok(checked(list, period, timings))
}
