// Plans of the largest size: 512 registers and 2,048 pairs.
use planner::Planned;
use refusals::Refused;
use std::io;
use test_kit::largest::{ANSWER, SCRATCH, WORDS};
use test_kit::lists::TWICE;
use test_kit::{random, show};

fn show_plan(rt: &impl Print, r: Result<Planned, Refused>) -> io::Result<()> {
    match r {
        Err(refused) => show::refusal(rt, refused),
        Ok(p) => println!(rt;
            "common {} free {} two {} offset {}",
            p.common, p.free, p.two, p.offset
        ),
    }
}

fn planned(rt: &impl Print, words: &[u32], scratch: &mut [u32]) -> io::Result<()> {
    let mut answer = [0u32; ANSWER];
    show_plan(rt, planner::plan(words, &mut answer, scratch))
}

// The plan of a random list with needs up to `most_need` and delays up to `most`, to which holds are added.
fn plan(rt: &impl Print, label: &str, seed: u64, most: u32, most_need: u32) -> io::Result<()> {
    let mut words = [0u32; WORDS];
    let d = random::largest(seed, most, most_need);
    rt.print(label)?;
    planned(rt, d.list().write(&mut words), &mut [0u32; SCRATCH])
}

// With one place of scratch too few.
fn short(rt: &impl Print, seed: u64) -> io::Result<()> {
    let mut words = [0u32; WORDS];
    let d = random::largest(seed, 1_000, 1_000);
    rt.print("one place of scratch less: ")?;
    planned(rt, d.list().write(&mut words), &mut [0u32; SCRATCH - 1])
}

pub fn lists(rt: &impl Print) -> io::Result<()> {
    plan(
        rt,
        "512 registers, 2048 pairs, delays to 1000: ",
        17,
        1_000,
        0,
    )?;
    plan(rt, "delays to 1000000: ", 19, timing::MAX_DELAY, 0)?;
    plan(rt, "needs to 100, delays to 1100: ", 17, 1_000, 100)?;
    plan(
        rt,
        "needs to 9999, delays to 1000000: ",
        19,
        timing::MAX_DELAY - timing::MAX_NEED,
        timing::MAX_NEED,
    )?;
    short(rt, 17)?;
    rt.print("0-1 twice: ")?;
    planned(rt, &TWICE, &mut [0u32; SCRATCH])
}
