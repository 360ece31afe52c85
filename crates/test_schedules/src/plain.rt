// What the free schedule and the check are to say, plainly.
use checker::{Checking, Rule, Smallest};
use test_kit::lists::List;
use test_kit::schedules::Schedules;
use test_kit::tally::Fate;

// The most registers.
const REGISTERS: usize = 3;

// Whether some schedule of timings up to `most` breaks no rule.
pub fn admitted(list: List<'_>, period: u32, most: u32) -> bool {
    Schedules::<REGISTERS>::new(list.registers(), most).any(|s| list.admits(period, &s))
}

// Of all such schedules: right if `best` is nowhere later than one of them, wrong if it is, void if there are none.
pub fn earliest(list: List<'_>, period: u32, most: u32, best: &[u32]) -> Fate {
    let mut found = Fate::Void;
    for s in Schedules::<REGISTERS>::new(list.registers(), most) {
        if list.admits(period, &s) {
            if s.iter().zip(best).any(|(x, b)| x < b) {
                return Fate::Wrong;
            }
            found = Fate::Right;
        }
    }
    found
}

// What a check is to say of a schedule.
pub fn checked(list: List<'_>, period: u32, s: &[u32]) -> Checking {
    match (smallest(list, period, s), broken(list, period, s)) {
        (None, _) => Checking::NoPairs,
        (Some(low), None) => Checking::Admissible(low),
        (Some(low), Some((pair, rule))) => Checking::Broken(pair, rule, low),
    }
}

// The first of the smallest margins, setup's before hold's.
fn smallest(list: List<'_>, period: u32, s: &[u32]) -> Option<Smallest> {
    let mut low = None;
    for (pair, p) in list.pairs.iter().enumerate() {
        low = lower(low, list.setup_margin(*p, period, s), pair, Rule::Setup);
        low = lower(low, list.hold_margin(*p, s), pair, Rule::Hold);
    }
    low
}

fn lower(low: Option<Smallest>, margin: i64, pair: usize, rule: Rule) -> Option<Smallest> {
    match low {
        Some(x) if x.margin <= margin => low,
        _ => Some(Smallest { margin, pair, rule }),
    }
}

// The first pair that breaks a rule, and the rule, setup if it breaks both.
fn broken(list: List<'_>, period: u32, s: &[u32]) -> Option<(usize, Rule)> {
    for (pair, p) in list.pairs.iter().enumerate() {
        if list.setup_margin(*p, period, s) < 0 {
            return Some((pair, Rule::Setup));
        }
        if list.hold_margin(*p, s) < 0 {
            return Some((pair, Rule::Hold));
        }
    }
    None
}
