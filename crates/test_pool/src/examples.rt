// Worked examples: lists that are pooled.
use crate::show::{into, pool};
use std::io;
use test_kit::lists::{Needs, P, P_NEEDS, Pair, needy};
use test_kit::places::front;
use test_pairs::show::plan;

// The words of 0-1 7/10 and 1-0 1/3, and those of 0-1 8/12 and 1-1 2/5.
pub const COLD: [u32; 8] = [
    0x2000_2002,
    0x4000_0001,
    0x6000_0007,
    0x8000_000A,
    0x4000_0400,
    0x6000_0001,
    0x8000_0003,
    0xE000_2418,
];

pub const HOT: [u32; 8] = [
    0x2000_2002,
    0x4000_0001,
    0x6000_0008,
    0x8000_000C,
    0x4000_0401,
    0x6000_0002,
    0x8000_0005,
    0xE000_241F,
];

// Two lists with the same needs, written and then pooled.
fn lists(
    rt: &impl Print,
    label: &str,
    first: &[Pair],
    second: &[Pair],
    needs: &[Needs],
) -> io::Result<()> {
    let mut a = [0u32; 32];
    let mut b = [0u32; 32];
    let one = needy(first, needs).write(&mut a);
    let other = needy(second, needs).write(&mut b);
    pool(rt, label, one, other)
}

pub fn pooled(rt: &impl Print) -> io::Result<()> {
    let mut answer = [9u32; 14];
    into(
        rt,
        "0-1 7/10, 1-0 1/3 with 0-1 8/12, 1-1 2/5: ",
        &COLD,
        &HOT,
        &mut answer,
    )?;
    plan::<24>(rt, "plan of the first: ", &COLD)?;
    plan::<24>(rt, "plan of the second: ", &HOT)?;
    plan::<24>(rt, "plan of the pooled list: ", front(&answer, 11))?;
    pool(rt, "the other way round: ", &HOT, &COLD)?;
    pool(rt, "the first with itself: ", &COLD, &COLD)?;
    let none = [[0, 0]; 3];
    let wide = [[0, 1, 7, 10]];
    let inner = [[0, 1, 8, 9]];
    lists(rt, "0-1 7/10 with 0-1 8/9: ", &wide, &inner, &none[..2])?;
    lists(rt, "0-1 8/9 with 0-1 7/10: ", &inner, &wide, &none[..2])?;
    let own = [[0, 0, 1, 2], [2, 2, 3, 4]];
    let cross = [[0, 2, 5, 6], [2, 0, 7, 8]];
    lists(
        rt,
        "0-0 1/2, 2-2 3/4 with 0-2 5/6, 2-0 7/8: ",
        &own,
        &cross,
        &none,
    )
}

// The needs of both are the same: hold 1 and setup 2 of register 0, hold 2 and setup 1 of register 1.
pub fn needs(rt: &impl Print) -> io::Result<()> {
    let hot = [[0, 1, 8, 12]];
    lists(rt, "with needs: ", &P, &hot, &P_NEEDS)?;
    lists(rt, "the other way round: ", &hot, &P, &P_NEEDS)?;
    lists(rt, "with no pairs: ", &P, &[], &P_NEEDS)
}

pub fn without_pairs(rt: &impl Print) -> io::Result<()> {
    let none = [0x2000_2000u32, 0xE000_2000];
    pool(rt, "no pairs with 0-1 7/10, 1-0 1/3: ", &none, &COLD)?;
    pool(rt, "the other way round: ", &COLD, &none)?;
    pool(rt, "no pairs with no pairs: ", &none, &none)?;
    let one = [0x2000_1000u32, 0xA000_0001, 0xE000_1001];
    pool(rt, "one register with a need, no pairs: ", &one, &one)
}

// Buffers around the eleven words of the first example.
pub fn rooms(rt: &impl Print) -> io::Result<()> {
    into(rt, "in no place: ", &COLD, &HOT, &mut [])?;
    into(rt, "in ten places: ", &COLD, &HOT, &mut [9u32; 10])?;
    into(rt, "in eleven places: ", &COLD, &HOT, &mut [9u32; 11])?;
    into(rt, "in thirteen places: ", &COLD, &HOT, &mut [9u32; 13])
}
