// A tally of what came of many runs.
ghost use Rattle.std.specs.Prelude.{◌≤◌};

use crate::lists::List;
use crate::random;
use std::io;

// Places enough for the words of a small list.
const WORDS: usize = 64;

// How a run fared. It is void where it is right and there was nothing to find.
#[derive(Clone, Copy, PartialEq, Eq)]
pub enum Fate {
    Void,
    Right,
    Wrong,
}

impl From<bool> for Fate {
    fn from(right: bool) -> Fate {
        if right { Fate::Right } else { Fate::Wrong }
    }
}

// The next seed of a run, and how one list fared.
#[derive(Clone, Copy)]
pub struct Turn {
    pub seed: u64,
    pub fate: Fate,
}

// How many runs there were of each fate.
#[derive(Clone, Copy)]
pub struct Tally {
    pub void: u32,
    pub right: u32,
    pub wrong: u32,
}

impl Tally {
    // No run yet.
    pub fn none() -> Tally {
        Tally {
            void: 0,
            right: 0,
            wrong: 0,
        }
    }

    // One run more.
    pub fn with(self, fate: Fate) -> Tally {
        let mut next = self;
        let count = match fate {
            Fate::Void => &mut next.void,
            Fate::Right => &mut next.right,
            Fate::Wrong => &mut next.wrong,
        };
        *count = count.saturating_add(1);
        next
    }

    // A line with how many were right, and how many wrong.
    pub fn tell(self, rt: &impl Print, label: &str) -> io::Result<()> {
        println!(rt; "{label}{} right, {} wrong", self.right, self.wrong)
    }
}

// What comes of so many turns, the first with this seed.
pub fn many<F: Fn(u64) -> Turn>(seed: u64, turns: u32, turn: F) -> Tally
    requires { F.IsAlwaysCallable turn }
{
    let mut tally = Tally::none();
    let mut next = seed;
    for _ in 0..turns {
        let t = turn(next);
        tally = tally.with(t.fate);
        next = t.seed;
    }
    tally
}

// How random lists of up to N registers and M pairs fare, with delays up to `delay`, more with a hold, and needs up to `need`. Each is
// judged by the list and its words.
pub fn many_lists<const N: usize, const M: usize, F: Fn(List<'_>, &[u32]) -> Fate>(
    seed: u64,
    lists: u32,
    delay: u32,
    need: u32,
    judge: F,
) -> Tally
    requires size { (N ≤ 64) × (M ≤ 64) }
    requires callable { F.IsAlwaysCallable judge }
{
    let mut tally = Tally::none();
    let mut next = seed;
    for _ in 0..lists {
        let mut words = [0u32; WORDS];
        let d = random::list::<N, M>(next, N as u32, delay, need);
        let list = d.list();
        tally = tally.with(judge(list, list.write(&mut words)));
        next = d.seed;
    }
    tally
}
