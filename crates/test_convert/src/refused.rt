// Worked examples: lists that are refused. The buffer is kept.
use crate::show::{convert, into};
use std::io;
use test_kit::lists::{TWICE, seal};

// 0-1 7/10 and 0-1 2/4 with the word at a place before the end changed, and the right sum.
fn changed(rt: &impl Print, label: &str, at: usize, word: u32) -> io::Result<()> {
    let mut list = TWICE;
    list[at % 8] = word;
    seal(&mut list);
    convert(rt, label, &list)
}

pub fn lists(rt: &impl Print) -> io::Result<()> {
    convert(rt, "no words: ", &[])?;
    convert(rt, "one word: ", &[0x2000_3000u32])?;
    changed(rt, "three pairs in eight words: ", 0, 0x2000_2003)?;
    changed(rt, "no registers: ", 0, 0x2000_0002)?;
    changed(rt, "second pair of kind 3: ", 4, 0x6000_0001)?;
    changed(rt, "second least of kind 4: ", 5, 0x8000_0002)?;
    changed(rt, "second capture n: ", 4, 0x4000_0002)?;
    changed(rt, "second launch n: ", 4, 0x4000_0800)?;
    changed(rt, "second least 1000001: ", 5, 0x600F_4241)?;
    changed(rt, "second greatest 1000001: ", 6, 0x800F_4241)?;
    changed(rt, "second 2/1: ", 6, 0x8000_0001)?;
    let mut sum = TWICE;
    sum[7] = 0xE000_201C;
    convert(rt, "a wrong sum: ", &sum)
}

// The pair 1-0 2/4 and then 0-1 7/10, with the needs of both registers.
fn needy(rt: &impl Print, label: &str, first: u32, second: u32) -> io::Result<()> {
    let mut list = [
        words::head_word(2, 2),
        first,
        second,
        0x4000_0400,
        0x6000_0002,
        0x8000_0004,
        0x4000_0001,
        0x6000_0007,
        0x8000_000A,
        0,
    ];
    seal(&mut list);
    convert(rt, label, &list)
}

// Holds of register 0 up to 2 and of register 1 up to 7 are met.
pub fn needs(rt: &impl Print) -> io::Result<()> {
    needy(
        rt,
        "1-0 2/4, 0-1 7/10, holds 2 and 7: ",
        0xA000_0002,
        0xA000_0007,
    )?;
    needy(
        rt,
        "no needs in the words of needs: ",
        0xA000_0000,
        0xA000_0000,
    )?;
    needy(rt, "hold 10000 of register 1: ", 0xA000_0002, 0xA000_2710)?;
    needy(rt, "hold 3 of register 0: ", 0xA000_0003, 0xA000_0007)?;
    needy(rt, "hold 8 of register 1: ", 0xA000_0002, 0xA000_0008)
}

// A list that is refused, and no room either.
pub fn first(rt: &impl Print) -> io::Result<()> {
    let mut sum = TWICE;
    sum[7] = 0xE000_201C;
    into(rt, "a wrong sum, no place: ", &sum, &mut [])
}
