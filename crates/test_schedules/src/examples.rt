// Worked examples.
use checker::{Checking, Rule, Smallest};
use free_schedule::Periods;
use refusals::Refused;
use std::io;
use test_kit::lists::{List, P, P_NEEDS, TWICE, needless, needy};
use test_kit::show;

pub fn show_free(rt: &impl Print, r: Result<Periods, Refused>) -> io::Result<()> {
    match r {
        Err(refused) => show::refusal(rt, refused),
        Ok(Periods { common, free }) => println!(rt; "common {common} free {free}"),
    }
}

fn show_check(rt: &impl Print, r: Result<Checking, Refused>) -> io::Result<()> {
    match r {
        Err(refused) => show::refusal(rt, refused),
        Ok(Checking::NoPairs) => println!(rt; "no pairs"),
        Ok(Checking::Admissible(x)) => {
            rt.print("admissible, ")?;
            show_smallest(rt, x)
        }
        Ok(Checking::Broken(pair, rule, x)) => {
            print!(rt; "pair {pair} breaks {}, ", name(rule))?;
            show_smallest(rt, x)
        }
    }
}

fn name(rule: Rule) -> &'static str {
    match rule {
        Rule::Setup => "setup",
        Rule::Hold => "hold",
    }
}

// The smallest margin, and the rule and the pair that have it.
fn show_smallest(rt: &impl Print, x: Smallest) -> io::Result<()> {
    println!(rt; "{} at {} of pair {}", x.margin, name(x.rule), x.pair)
}

// The free schedule of a list, in five places that held 9.
fn free(rt: &impl Print, label: &str, list: List<'_>) -> io::Result<()> {
    let mut words = [0u32; 32];
    let mut answer = [9u32; 5];
    rt.print(label)?;
    show_free(rt, free_schedule::free(list.write(&mut words), &mut answer))?;
    show::numbers(rt, &answer)
}

// A schedule checked against a list.
fn check(
    rt: &impl Print,
    label: &str,
    list: List<'_>,
    period: u32,
    timings: &[u32],
) -> io::Result<()> {
    let mut words = [0u32; 32];
    rt.print(label)?;
    show_check(rt, checker::check(list.write(&mut words), period, timings))
}

pub fn free_schedules(rt: &impl Print) -> io::Result<()> {
    free(rt, "P: ", needless(2, &[[0, 1, 7, 10], [1, 0, 1, 3]]))?;
    free(rt, "0-1 3/10: ", needless(2, &[[0, 1, 3, 10]]))?;
    free(rt, "0-1 0/10: ", needless(2, &[[0, 1, 0, 10]]))?;
    free(rt, "0-1 10/10: ", needless(2, &[[0, 1, 10, 10]]))?;
    free(
        rt,
        "ring of three: ",
        needless(3, &[[0, 1, 9, 9], [1, 2, 9, 9], [2, 0, 3, 3]]),
    )?;
    free(rt, "0-0 0/5: ", needless(1, &[[0, 0, 0, 5]]))?;
    free(rt, "0-1 2/10: ", needless(2, &[[0, 1, 2, 10]]))
}

// P with hold 1 and setup 2 of register 0, hold 2 and setup 1 of register 1; and 0-1 10/10 with one need at a time.
pub fn needy_free_schedules(rt: &impl Print) -> io::Result<()> {
    let one = [[0, 1, 10, 10]];
    free(rt, "P with needs: ", needy(&P, &P_NEEDS))?;
    free(
        rt,
        "0-1 10/10, capture hold 4: ",
        needy(&one, &[[0, 0], [4, 0]]),
    )?;
    free(
        rt,
        "0-1 10/10, capture setup 4: ",
        needy(&one, &[[0, 0], [0, 4]]),
    )?;
    free(
        rt,
        "0-1 10/10, launch needs 4: ",
        needy(&one, &[[4, 4], [0, 0]]),
    )?;
    free(
        rt,
        "0-0 2/5, hold 2, setup 3: ",
        needy(&[[0, 0, 2, 5]], &[[2, 3]]),
    )?;
    free(rt, "needs and no pairs: ", needy(&[], &[[1, 2], [3, 4]]))?;
    free(
        rt,
        "the longest: ",
        needy(&[[0, 1, 1_000_000, 1_000_000]], &[[0, 0], [0, 9_999]]),
    )
}

// The rules of P with needs, each met by a whisker and broken by one.
pub fn needy_checks(rt: &impl Print) -> io::Result<()> {
    let p = needy(&P, &P_NEEDS);
    check(rt, "P with needs at 8, 0 3: ", p, 8, &[0u32, 3])?;
    check(rt, "at 8, 0 2: ", p, 8, &[0u32, 2])?;
    check(rt, "at 8, 0 4: ", p, 8, &[0u32, 4])?;
    check(rt, "at 10, 0 5: ", p, 10, &[0u32, 5])?;
    check(rt, "at 11, 0 6: ", p, 11, &[0u32, 6])?;
    check(rt, "at 12, 1 0: ", p, 12, &[1u32, 0])
}

pub fn checks(rt: &impl Print) -> io::Result<()> {
    let p = needless(2, &P);
    check(rt, "P at 7, 0 3: ", p, 7, &[0u32, 3])?;
    check(rt, "P at 7, 0 4: ", p, 7, &[0u32, 4])?;
    check(rt, "P at 7, 0 2: ", p, 7, &[0u32, 2])?;
    check(rt, "P at 7, 0 5: ", p, 7, &[0u32, 5])?;
    check(rt, "P at 7, 3 10: ", p, 7, &[3u32, 10])?;
    check(
        rt,
        "0-1 7/10 at 9, 0 8: ",
        needless(2, &[[0, 1, 7, 10]]),
        9,
        &[0u32, 8],
    )?;
    check(
        rt,
        "0-0 0/5 at 4, 0: ",
        needless(1, &[[0, 0, 0, 5]]),
        4,
        &[0u32],
    )
}

// The smallest margin where two are the same: in a pair, and in two pairs.
pub fn ties(rt: &impl Print) -> io::Result<()> {
    check(
        rt,
        "setup and hold the same: ",
        needless(2, &[[0, 1, 6, 10]]),
        12,
        &[2u32, 4],
    )?;
    check(
        rt,
        "two pairs the same: ",
        needless(2, &[[0, 1, 9, 10], [1, 0, 9, 10]]),
        12,
        &[4u32, 4],
    )?;
    check(
        rt,
        "hold of pair 0 and setup of pair 1: ",
        needless(2, &[[0, 1, 2, 3], [1, 0, 9, 10]]),
        12,
        &[4u32, 4],
    )
}

// The smallest margin above 0, of another pair than the first broken one, of no pair; the largest and the smallest there are.
pub fn margins(rt: &impl Print) -> io::Result<()> {
    let p = needless(2, &P);
    let one = [[0, 1, 1_000_000, 1_000_000]];
    check(rt, "P at 10, 0 3: ", p, 10, &[0u32, 3])?;
    check(
        rt,
        "pair 0 broken, pair 1 by more: ",
        needless(2, &[[0, 1, 9, 10], [1, 0, 9, 20]]),
        9,
        &[4u32, 4],
    )?;
    check(
        rt,
        "a list without pairs: ",
        needless(2, &[]),
        5,
        &[4u32, 4],
    )?;
    check(
        rt,
        "the largest: ",
        needless(2, &[[0, 1, 504_999, 505_000]]),
        1_009_999,
        &[0u32, 0],
    )?;
    check(
        rt,
        "the smallest: ",
        needy(&one, &[[0, 0], [0, 9_999]]),
        1,
        &[516_109_489u32, 0],
    )
}

pub fn refusals(rt: &impl Print) -> io::Result<()> {
    let p = needless(2, &P);
    check(rt, "period 0: ", p, 0, &[0u32, 3])?;
    check(rt, "period 1009999: ", p, 1_009_999, &[0u32, 3])?;
    check(rt, "period 1010000: ", p, 1_010_000, &[0u32, 3])?;
    check(rt, "three timings: ", p, 7, &[0u32, 3, 0])?;
    check(rt, "timing 516109489: ", p, 7, &[516_109_489u32, 0])?;
    check(rt, "timing 516109490: ", p, 7, &[0u32, 516_109_490])?;
    free(
        rt,
        "six registers in five places: ",
        needless(6, &[[0, 1, 7, 10]]),
    )?;
    rt.print("0-1 twice: ")?;
    show_free(rt, free_schedule::free(&TWICE, &mut [9u32; 5]))?;
    rt.print("the same checked: ")?;
    show_check(rt, checker::check(&TWICE, 0, &[0u32, 3]))
}
