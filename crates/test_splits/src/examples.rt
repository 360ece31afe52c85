// Worked examples.
use refusals::Refused;
use std::io;
use test_kit::lists::{List, P, P_NEEDS, TWICE, needless, needy};
use test_kit::show;

pub fn show_split(rt: &impl Print, r: Result<bool, Refused>) -> io::Result<()> {
    match r {
        Err(refused) => show::refusal(rt, refused),
        Ok(works) => rt.println(if works { "yes" } else { "no" }),
    }
}

// A list at a period and an offset, with four places for the answer that held 9 and as much scratch as is asked for.
fn try_at(
    rt: &impl Print,
    label: &str,
    list: List<'_>,
    period: u32,
    offset: u32,
) -> io::Result<()> {
    let mut words = [0u32; 32];
    let mut answer = [9u32; 4];
    let mut scratch = [9u32; 32];
    let given = list.write(&mut words);
    rt.print(label)?;
    show_split(
        rt,
        split::split(given, period, offset, &mut answer, &mut scratch),
    )?;
    show::numbers(rt, &answer)
}

pub fn splits(rt: &impl Print) -> io::Result<()> {
    let p = needless(2, &P);
    try_at(rt, "P at 7 and 2: ", p, 7, 2)?;
    try_at(rt, "P at 7 and 3: ", p, 7, 3)?;
    try_at(rt, "P at 7 and 4: ", p, 7, 4)?;
    try_at(rt, "P at 7 and 5: ", p, 7, 5)?;
    try_at(rt, "P at 10 and 0: ", p, 10, 0)?;
    try_at(
        rt,
        "0-1 3/10 at 9 and 2: ",
        needless(2, &[[0, 1, 3, 10]]),
        9,
        2,
    )?;
    try_at(
        rt,
        "0-0 0/5 at 5 and 3: ",
        needless(1, &[[0, 0, 0, 5]]),
        5,
        3,
    )?;
    try_at(
        rt,
        "0-0 0/5 at 4 and 3: ",
        needless(1, &[[0, 0, 0, 5]]),
        4,
        3,
    )
}

// P with hold 1 and setup 2 of register 0, hold 2 and setup 1 of register 1: an offset of 3 alone at 8, of 1 to 5 at 10.
pub fn needy_splits(rt: &impl Print) -> io::Result<()> {
    let p = needy(&P, &P_NEEDS);
    try_at(rt, "P with needs at 7 and 3: ", p, 7, 3)?;
    try_at(rt, "at 8 and 2: ", p, 8, 2)?;
    try_at(rt, "at 8 and 3: ", p, 8, 3)?;
    try_at(rt, "at 8 and 4: ", p, 8, 4)?;
    try_at(rt, "at 10 and 5: ", p, 10, 5)?;
    try_at(rt, "at 10 and 6: ", p, 10, 6)?;
    let longest = needy(&[[0, 1, 1_000_000, 1_000_000]], &[[0, 0], [0, 9_999]]);
    try_at(
        rt,
        "the longest at 9999 and 1000000: ",
        longest,
        9_999,
        1_000_000,
    )?;
    try_at(rt, "at 9998 and 1000000: ", longest, 9_998, 1_000_000)?;
    try_at(
        rt,
        "at 1009999 and 1009999: ",
        longest,
        1_009_999,
        1_009_999,
    )
}

pub fn refusals(rt: &impl Print) -> io::Result<()> {
    let p = needless(2, &P);
    try_at(rt, "period 0: ", p, 0, 3)?;
    try_at(rt, "period 1009999: ", p, 1_009_999, 3)?;
    try_at(rt, "period 1010000: ", p, 1_010_000, 3)?;
    try_at(rt, "offset 1009999: ", p, 7, 1_009_999)?;
    try_at(rt, "offset 1010000: ", p, 7, 1_010_000)?;
    try_at(rt, "five registers in four places: ", needless(5, &P), 7, 3)?;
    try_at(
        rt,
        "too little scratch: ",
        needless(4, &[[0, 1, 7, 10], [1, 0, 1, 3], [2, 3, 0, 5]]),
        7,
        3,
    )?;
    rt.print("0-1 twice: ")?;
    show_split(
        rt,
        split::split(&TWICE, 0, 3, &mut [9u32; 1], &mut [9u32; 19]),
    )
}
