// Worked examples: lists that are refused, each as the first list and as the second. The buffer is kept.
use crate::examples::{COLD, HOT};
use crate::show;
use std::io;
use test_kit::lists::{TWICE, seal};
use test_kit::places::{DIRT, kept};

// Pools two lists that are refused into a buffer that is dirty.
fn refused<'a>(rt: &impl Print, first: &'a [u32], second: &'a [u32]) -> io::Result<()> {
    let mut answer = [DIRT; 14];
    match pooling::pool(first, second, &mut answer) {
        Ok(_) => rt.println("pooled"),
        Err(refused) => {
            if !kept(&answer, 0) {
                rt.print("changed, ")?;
            }
            show::refusal(rt, refused)
        }
    }
}

// A list with the other one, as the first and as the second.
fn with_cold(rt: &impl Print, label: &str, list: &[u32]) -> io::Result<()> {
    rt.print(label)?;
    refused(rt, list, &COLD)?;
    rt.print(label)?;
    refused(rt, &COLD, list)
}

// 0-1 7/10 and 1-0 1/3 with the word at a place before the end changed, and the right sum.
fn changed(rt: &impl Print, label: &str, at: usize, word: u32) -> io::Result<()> {
    let mut list = COLD;
    list[at % 8] = word;
    seal(&mut list);
    with_cold(rt, label, &list)
}

pub fn lists(rt: &impl Print) -> io::Result<()> {
    with_cold(rt, "no words: ", &[])?;
    with_cold(rt, "one word: ", &[0x2000_3000u32])?;
    changed(rt, "three pairs in eight words: ", 0, 0x2000_2003)?;
    changed(rt, "no registers: ", 0, 0x2000_0002)?;
    changed(rt, "second pair of kind 3: ", 4, 0x6000_0001)?;
    changed(rt, "second capture n: ", 4, 0x4000_0402)?;
    changed(rt, "second least 1000001: ", 5, 0x600F_4241)?;
    changed(rt, "second greatest 1000001: ", 6, 0x800F_4241)?;
    changed(rt, "second 1/0: ", 6, 0x8000_0000)?;
    let mut sum = COLD;
    sum[7] = 0xE000_2419;
    with_cold(rt, "a wrong sum: ", &sum)?;
    with_cold(rt, "a pair twice: ", &TWICE)?;
    changed(rt, "the first pair after the second: ", 1, 0x4000_0401)
}

// 0-1 7/10 and 1-0 1/3 with the words of needs of both registers.
fn needy(rt: &impl Print, label: &str, first: u32, second: u32) -> io::Result<()> {
    let mut list = [
        words::head_word(2, 2),
        first,
        second,
        0x4000_0001,
        0x6000_0007,
        0x8000_000A,
        0x4000_0400,
        0x6000_0001,
        0x8000_0003,
        0,
    ];
    seal(&mut list);
    with_cold(rt, label, &list)
}

// Holds of register 0 up to 1 and of register 1 up to 7 are met. Needs that one list has and the other has not are of neither.
pub fn needs(rt: &impl Print) -> io::Result<()> {
    needy(
        rt,
        "no needs in the words of needs: ",
        0xA000_0000,
        0xA000_0000,
    )?;
    needy(rt, "hold 10000 of register 1: ", 0xA000_0001, 0xA000_2710)?;
    needy(rt, "hold 2 of register 0: ", 0xA000_0002, 0xA000_0007)?;
    needy(rt, "hold 1 of register 0: ", 0xA000_0001, 0xA000_0000)?;
    needy(rt, "setup 1 of register 1: ", 0xA000_0000, 0xA000_4000)
}

// Three registers and one pair, where the other list has two.
pub fn both(rt: &impl Print) -> io::Result<()> {
    let three = [
        0x2000_3001u32,
        0x4000_0001,
        0x6000_0007,
        0x8000_000A,
        0xE000_3013,
    ];
    with_cold(rt, "three registers: ", &three)?;
    with_cold(
        rt,
        "three registers, no pairs: ",
        &[0x2000_3000u32, 0xE000_3000],
    )
}

// What is refused first: the first list, the second, then what is of both, then the room.
pub fn first(rt: &impl Print) -> io::Result<()> {
    let mut sum = COLD;
    sum[7] = 0xE000_2419;
    let three = [0x2000_3000u32, 0xE000_3000];
    rt.print("both lists wrong: ")?;
    refused(rt, &sum, &TWICE)?;
    rt.print("the other way round: ")?;
    refused(rt, &TWICE, &sum)?;
    rt.print("three registers and a wrong sum: ")?;
    refused(rt, &three, &sum)?;
    show::into(rt, "a wrong sum, no place: ", &COLD, &sum, &mut [])?;
    show::into(rt, "three registers, no place: ", &three, &HOT, &mut [])?;
    show::into(rt, "no place: ", &COLD, &HOT, &mut [])
}
