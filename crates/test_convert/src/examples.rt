// Worked examples: lists that are converted.
use crate::show::{convert, into};
use std::io;
use test_kit::lists::{List, P, P_NEEDS, TWICE, needless, needy};
use test_kit::places::front;
use test_pairs::show::plan;

// A list with its pairs as they come, written and then converted.
fn stored(rt: &impl Print, label: &str, list: List<'_>) -> io::Result<()> {
    let mut words = [0u32; 32];
    convert(rt, label, list.store(&mut words))
}

// 0-1 7/10 and 0-1 2/4 are 0-1 2/10; and the plan of that.
pub fn repeats(rt: &impl Print) -> io::Result<()> {
    let mut answer = [9u32; 8];
    into(rt, "0-1 7/10, 0-1 2/4: ", &TWICE, &mut answer)?;
    plan::<20>(rt, "its plan: ", front(&answer, 5))?;
    let three = [[1, 0, 4, 6], [1, 0, 5, 9], [1, 0, 3, 3]];
    stored(rt, "1-0 4/6, 1-0 5/9, 1-0 3/3: ", needless(2, &three))?;
    let apart = [[1, 0, 1, 3], [0, 1, 7, 10], [1, 0, 0, 2], [0, 1, 8, 11]];
    stored(
        rt,
        "1-0 1/3, 0-1 7/10, 1-0 0/2, 0-1 8/11: ",
        needless(2, &apart),
    )
}

// Lists in descending order.
pub fn orders(rt: &impl Print) -> io::Result<()> {
    let p = [[1, 0, 1, 3], [0, 1, 7, 10]];
    stored(rt, "P in descending order: ", needless(2, &p))?;
    stored(rt, "the same with needs: ", needy(&p, &P_NEEDS))?;
    let captures = [[0, 2, 1, 3], [0, 1, 7, 10], [0, 0, 0, 5]];
    stored(rt, "0-2 1/3, 0-1 7/10, 0-0 0/5: ", needless(3, &captures))
}

// Lists that come back word for word.
pub fn unchanged(rt: &impl Print) -> io::Result<()> {
    stored(rt, "P: ", needless(2, &P))?;
    stored(rt, "P with needs: ", needy(&P, &P_NEEDS))?;
    convert(
        rt,
        "three registers, no pairs: ",
        &[0x2000_3000u32, 0xE000_3000],
    )?;
    let one = [0x2000_1000u32, 0xA000_0001, 0xE000_1001];
    convert(rt, "one register with a need, no pairs: ", &one)
}

// Buffers around the five words of 0-1 2/10.
pub fn rooms(rt: &impl Print) -> io::Result<()> {
    into(rt, "0-1 twice in no place: ", &TWICE, &mut [])?;
    into(rt, "0-1 twice in four places: ", &TWICE, &mut [9u32; 4])?;
    into(rt, "0-1 twice in five places: ", &TWICE, &mut [9u32; 5])?;
    into(rt, "0-1 twice in seven places: ", &TWICE, &mut [9u32; 7])
}
