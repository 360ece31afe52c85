// Chains of forced choices, followed straight from the numbers and the needs of a list.
ghost use Rattle.std.specs.Prelude.{◌<◌, ◌^◌};

use blocking::Blocked;
use refusals::Refused;
use test_kit::lists::{List, Pair};
use test_kit::places::{cleared, front, kept};
use test_kit::tally::Fate;

#[derive(Clone, Copy, PartialEq, Eq)]
enum Choice {
    Early,
    Late,
}

impl Choice {
    // A choice by a digit in base two.
    fn of(digit: u32) -> Choice {
        if digit == 0 {
            Choice::Early
        } else {
            Choice::Late
        }
    }

    fn opposite(self) -> Choice {
        match self {
            Choice::Early => Choice::Late,
            Choice::Late => Choice::Early,
        }
    }

    fn time(self, offset: u32) -> u64
        ensures { result < 2 ^ 32 }
    {
        match self {
            Choice::Early => 0,
            Choice::Late => u64::from(offset),
        }
    }
}

// Where a chain stands, a register with a choice.
#[derive(Clone, Copy, PartialEq, Eq)]
struct Stand {
    register: u32,
    choice: Choice,
}

impl Stand {
    fn opposite(self) -> Stand {
        Stand {
            register: self.register,
            choice: self.choice.opposite(),
        }
    }
}

// A list at a period and an offset.
#[derive(Clone, Copy)]
struct Trial<'a> {
    list: List<'a>,
    period: u32,
    offset: u32,
}

impl<'a> Trial<'a> {
    // Whether a pair with these choices of its ends breaks setup or hold.
    fn breaks(self, pair: Pair, launch: Choice, capture: Choice) -> bool {
        let [_, register, least, greatest] = pair;
        let [hold, setup] = self.list.needs_of(register);
        let from = launch.time(self.offset);
        let to = capture.time(self.offset);
        from + u64::from(greatest) + u64::from(setup) > to + u64::from(self.period)
            || to + u64::from(hold) > from + u64::from(least)
    }

    // Where a step leads, which names a pair and its row, if it is a forced one from there.
    fn follow(self, at: Stand, step: u32) -> Option<Stand> {
        let pair = *self.list.pairs.get((step / 4) as usize)?;
        let launch = Stand {
            register: pair[0],
            choice: Choice::of(step % 4 / 2),
        };
        let capture = Stand {
            register: pair[1],
            choice: Choice::of(step % 2),
        };
        if !self.breaks(pair, launch.choice, capture.choice) {
            return None;
        }
        if at == launch {
            return Some(capture.opposite());
        }
        (at == capture).then_some(launch.opposite())
    }

    // Whether steps lead a register from a choice to the opposite one.
    fn leads(self, steps: &[u32], register: u32, choice: Choice) -> bool {
        let start = Stand { register, choice };
        let mut at = start;
        for step in steps {
            let Some(next) = self.follow(at, *step) else {
                return false;
            };
            at = next;
        }
        at == start.opposite()
    }
}

// A chain has from 1 to 2n - 1 steps.
fn sized(n: u32, count: u32) -> bool {
    1 <= count && u64::from(count) < 2 * u64::from(n)
}

// Whether the first places of the answer buffer hold two chains of such lengths at a register, and the later ones are as they were.
fn shown(list: List<'_>, period: u32, answer: &[u32], b: Blocked) -> bool {
    let trial = Trial {
        list,
        period,
        offset: common(list).saturating_sub(period),
    };
    let n = list.registers();
    let Some((first, back)) = answer.split_at_checked(b.first as usize) else {
        return false;
    };
    b.register < n
        && sized(n, b.first)
        && sized(n, b.second)
        && trial.leads(first, b.register, Choice::Early)
        && trial.leads(front(back, b.second as usize), b.register, Choice::Late)
        && kept(back, b.second as usize)
}

// No pair of the lists asks for more.
const LONGEST: u32 = 0x1F_FFFF;

// The common period: the longest that a pair asks for setup.
pub fn common(list: List<'_>) -> u32
    ensures { result < 2 ^ 21 }
{
    let mut most: u32 = 1;
    for p in list.pairs {
        let [_, capture, _, greatest] = *p;
        let [_, setup] = list.needs_of(capture);
        most = most.max(greatest.saturating_add(setup));
    }
    most.min(LONGEST)
}

// How a call fared at a period at which some split works, which makes it void, or none.
pub fn fate(
    works: bool,
    said: Result<Option<Blocked>, Refused>,
    list: List<'_>,
    period: u32,
    answer: &[u32],
    scratch: &[u32],
) -> Fate {
    if !cleared(scratch, list.scratch()) {
        return Fate::Wrong;
    }
    match said {
        Ok(None) if works && kept(answer, 0) => Fate::Void,
        Ok(Some(blocked)) if !works => Fate::from(shown(list, period, answer, blocked)),
        _ => Fate::Wrong,
    }
}
