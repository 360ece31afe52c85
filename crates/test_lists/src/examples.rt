// Worked examples: lists that pass, and each refusal with its place.
use crate::show::{reading, writing};
use std::io;
use test_kit::lists::seal;
use test_kit::show;

// Reads a list into sixteen places that hold 9, and shows the answer and the first fourteen places.
fn read(rt: &impl Print, label: &str, words: &[u32]) -> io::Result<()> {
    let mut answer = [9u32; 16];
    rt.print(label)?;
    reading(rt, read_list::read(words, &mut answer))?;
    show::numbers(rt, &answer[..14])
}

// Writes a list into twelve places that hold 9, and shows the answer and the first eleven places.
fn write(rt: &impl Print, label: &str, n: u32, numbers: &[u32], needs: &[u32]) -> io::Result<()> {
    let mut answer = [9u32; 12];
    rt.print(label)?;
    writing(rt, write_list::write(n, numbers, needs, &mut answer))?;
    show::numbers(rt, &answer[..11])
}

// Lists that pass. List P is 0-1 7/10 and 1-0 1/3.
pub fn lists(rt: &impl Print) -> io::Result<()> {
    let p = [
        0x2000_2002u32,
        0x4000_0001,
        0x6000_0007,
        0x8000_000A,
        0x4000_0400,
        0x6000_0001,
        0x8000_0003,
        0xE000_2418,
    ];
    read(rt, "P: ", &p)?;
    let numbers = [0u32, 1, 7, 10, 1, 0, 1, 3];
    write(rt, "P written: ", 2, &numbers, &[0u32, 0, 0, 0])?;
    let empty = [0x2000_3000u32, 0xE000_3000];
    read(rt, "three registers, no pairs: ", &empty)
}

// Lists with needs that pass: P with hold 1 and setup 2 of register 0, hold 2 and setup 1 of register 1; needs without pairs.
pub fn needy_lists(rt: &impl Print) -> io::Result<()> {
    let p = [
        0x2000_2002u32,
        0xA000_8001,
        0xA000_4002,
        0x4000_0001,
        0x6000_0007,
        0x8000_000A,
        0x4000_0400,
        0x6000_0001,
        0x8000_0003,
        0xE000_E41B,
    ];
    read(rt, "P with needs: ", &p)?;
    let numbers = [0u32, 1, 7, 10, 1, 0, 1, 3];
    write(rt, "P with needs written: ", 2, &numbers, &[1u32, 2, 2, 1])?;
    let empty = [0x2000_1000u32, 0xA000_0001, 0xE000_1001];
    read(rt, "one register with a need, no pairs: ", &empty)?;
    write(rt, "the same written: ", 1, &[], &[1u32, 0])
}

// Lists that are refused before their pairs are looked at.
pub fn refused_lists(rt: &impl Print) -> io::Result<()> {
    let one = [0x2000_3000u32];
    read(rt, "one word: ", &one)?;
    let kind = [0x4000_3000u32, 0xE000_3000];
    read(rt, "head of kind 2: ", &kind)?;
    let spare = [0x2040_3000u32, 0xE040_3000];
    read(rt, "head with a spare bit: ", &spare)?;
    let registers = [0x2000_0000u32, 0xE000_0000];
    read(rt, "no registers: ", &registers)?;
    let many = [0x2020_1000u32, 0xE020_1000];
    read(rt, "513 registers: ", &many)?;
    let pairs = [0x2000_1801u32, 0xE000_1801];
    read(rt, "2049 pairs: ", &pairs)?;
    let count = [0x2000_3001u32, 0xE000_3001];
    read(rt, "one pair, two words: ", &count)?;
    let needs = [0x2000_2000u32, 0xA000_0001, 0xE000_2001];
    read(rt, "needs of one register of two: ", &needs)?;
    let end = [0x2000_1000u32, 0xA000_1000];
    read(rt, "needs in place of the end: ", &end)
}

// One pair of n registers in three words, with the right head and end.
fn pair(
    rt: &impl Print,
    label: &str,
    n: u32,
    pair: u32,
    least: u32,
    greatest: u32,
) -> io::Result<()> {
    let mut list = [
        words::head_word(n % (timing::MAX_REGISTERS + 1), 1),
        pair,
        least,
        greatest,
        0,
    ];
    seal(&mut list);
    read(rt, label, &list)
}

// A pair from register 0 to register 1 of two, with the needs of both in two words before it.
fn needy_pair(
    rt: &impl Print,
    label: &str,
    first: u32,
    second: u32,
    least: u32,
    greatest: u32,
) -> io::Result<()> {
    let mut list = [
        words::head_word(2, 1),
        first,
        second,
        0x4000_0001,
        least,
        greatest,
        0,
    ];
    seal(&mut list);
    read(rt, label, &list)
}

// The largest needs, and larger ones.
pub fn needs(rt: &impl Print) -> io::Result<()> {
    needy_pair(
        rt,
        "needs 9999: ",
        0xA9C3_E70F,
        0xA9C3_E70F,
        0x6000_270F,
        0x8000_270F,
    )?;
    needy_pair(
        rt,
        "hold 10000: ",
        0xA000_0001,
        0xA000_2710,
        0x6000_2710,
        0x8000_2710,
    )?;
    needy_pair(
        rt,
        "setup 10000: ",
        0xA9C4_0000,
        0xA000_2710,
        0x6000_2710,
        0x8000_2710,
    )
}

// Words in the place of needs that are none, or not all that a word of needs may be.
pub fn kinds_of_needs(rt: &impl Print) -> io::Result<()> {
    needy_pair(
        rt,
        "needs with a spare bit: ",
        0xB000_0001,
        0xA000_0001,
        0x6000_0007,
        0x8000_000A,
    )?;
    needy_pair(
        rt,
        "second needs of kind 2: ",
        0xA000_0001,
        0x4000_0001,
        0x6000_0007,
        0x8000_000A,
    )?;
    needy_pair(
        rt,
        "second needs of kind 6: ",
        0xA000_0000,
        0xC000_0000,
        0x6000_0007,
        0x8000_000A,
    )?;
    needy_pair(
        rt,
        "first needs of kind 4: ",
        0x8000_0001,
        0xA000_0001,
        0x6000_0007,
        0x8000_000A,
    )
}

// Needs that are all 0, before and after other faults.
pub fn needs_of_zeros(rt: &impl Print) -> io::Result<()> {
    needy_pair(
        rt,
        "needs of zeros: ",
        0xA000_0000,
        0xA000_0000,
        0x6000_0007,
        0x8000_000A,
    )?;
    needy_pair(
        rt,
        "needs of zeros, 4/3: ",
        0xA000_0000,
        0xA000_0000,
        0x6000_0004,
        0x8000_0003,
    )
}

// A least delay and the hold of the capture register; the hold of the launch register does not matter.
pub fn holds(rt: &impl Print) -> io::Result<()> {
    needy_pair(
        rt,
        "least 7, hold 7: ",
        0xA000_0000,
        0xA000_0007,
        0x6000_0007,
        0x8000_000A,
    )?;
    needy_pair(
        rt,
        "least 7, hold 8: ",
        0xA000_0000,
        0xA000_0008,
        0x6000_0007,
        0x8000_000A,
    )?;
    needy_pair(
        rt,
        "least 7, launch hold 8: ",
        0xA000_0008,
        0xA000_0000,
        0x6000_0007,
        0x8000_000A,
    )?;
    needy_pair(
        rt,
        "least 7, setup 8: ",
        0xA000_0000,
        0xA002_0000,
        0x6000_0007,
        0x8000_000A,
    )
}

// Refusals that come before a least delay below its hold.
pub fn before_holds(rt: &impl Print) -> io::Result<()> {
    needy_pair(
        rt,
        "4/3, hold 8: ",
        0xA000_0000,
        0xA000_0008,
        0x6000_0004,
        0x8000_0003,
    )?;
    needy_pair(
        rt,
        "greatest of kind 3, hold 8: ",
        0xA000_0000,
        0xA000_0008,
        0x6000_0007,
        0x6000_000A,
    )
}

// Pairs that pass, and pairs that are refused.
pub fn pairs(rt: &impl Print) -> io::Result<()> {
    pair(
        rt,
        "delay 1000000: ",
        2,
        0x4000_0001,
        0x6000_0000,
        0x800F_4240,
    )?;
    pair(
        rt,
        "delay 1000001: ",
        2,
        0x4000_0001,
        0x6000_0000,
        0x800F_4241,
    )?;
    pair(
        rt,
        "least 1000001: ",
        2,
        0x4000_0001,
        0x600F_4241,
        0x800F_4240,
    )?;
    pair(rt, "4/4: ", 2, 0x4000_0001, 0x6000_0004, 0x8000_0004)?;
    pair(rt, "4/3: ", 2, 0x4000_0001, 0x6000_0004, 0x8000_0003)?;
    pair(
        rt,
        "capture n - 1: ",
        2,
        0x4000_0001,
        0x6000_0000,
        0x8000_0005,
    )?;
    pair(rt, "capture n: ", 2, 0x4000_0002, 0x6000_0000, 0x8000_0005)?;
    pair(rt, "launch n: ", 2, 0x4000_0800, 0x6000_0000, 0x8000_0005)
}

// Words of the wrong kind, and a wrong end.
pub fn kinds(rt: &impl Print) -> io::Result<()> {
    pair(
        rt,
        "pair of kind 3: ",
        2,
        0x6000_0001,
        0x6000_0000,
        0x8000_0005,
    )?;
    pair(
        rt,
        "pair with a spare bit: ",
        2,
        0x4010_0001,
        0x6000_0000,
        0x8000_0005,
    )?;
    pair(
        rt,
        "least of kind 4: ",
        2,
        0x4000_0001,
        0x8000_0000,
        0x8000_0005,
    )?;
    pair(
        rt,
        "greatest of kind 3: ",
        2,
        0x4000_0001,
        0x6000_0000,
        0x6000_0005,
    )?;
    pair(
        rt,
        "least of 2^28: ",
        2,
        0x4000_0001,
        0x7000_0000,
        0x8000_0005,
    )?;
    let kind = [0x2000_3000u32, 0xC000_3000];
    read(rt, "end of kind 6: ", &kind)?;
    let sum = [0x2000_3000u32, 0xE000_3001];
    read(rt, "end with a wrong sum: ", &sum)
}

// Three pairs of two registers, each with delays 7/10, with the right head and end.
fn three_pairs(
    rt: &impl Print,
    label: &str,
    first: u32,
    second: u32,
    third: u32,
) -> io::Result<()> {
    let mut list = [
        words::head_word(2, 3),
        first,
        0x6000_0007,
        0x8000_000A,
        second,
        0x6000_0007,
        0x8000_000A,
        third,
        0x6000_0007,
        0x8000_000A,
        0,
    ];
    seal(&mut list);
    read(rt, label, &list)
}

// Pairs that rise by launch, then capture, and pairs that do not: the same as the one before, below it by launch, below it by capture.
pub fn orders(rt: &impl Print) -> io::Result<()> {
    three_pairs(rt, "0-0, 0-1, 1-0: ", 0x4000_0000, 0x4000_0001, 0x4000_0400)?;
    three_pairs(rt, "0-0, 0-1, 0-1: ", 0x4000_0000, 0x4000_0001, 0x4000_0001)?;
    three_pairs(rt, "0-0, 1-0, 0-1: ", 0x4000_0000, 0x4000_0400, 0x4000_0001)?;
    three_pairs(rt, "0-1, 0-0, 1-0: ", 0x4000_0001, 0x4000_0000, 0x4000_0400)?;
    three_pairs(
        rt,
        "0-1, 0-0, 2-0 of two: ",
        0x4000_0001,
        0x4000_0000,
        0x4000_0800,
    )?;
    three_pairs(
        rt,
        "0-1, 1-0, 1-2 of two: ",
        0x4000_0001,
        0x4000_0400,
        0x4000_0402,
    )
}

// The pair from register 0 to register 1 of two twice over, with the needs of both, the hold of register 1 being 3; the second has
// these delays, and so much is added to the sum.
fn twice(rt: &impl Print, label: &str, least: u32, greatest: u32, more: u32) -> io::Result<()> {
    let mut list = [
        words::head_word(2, 2),
        0xA000_0000,
        0xA000_0003,
        0x4000_0001,
        0x6000_0007,
        0x8000_000A,
        0x4000_0001,
        least,
        greatest,
        0,
    ];
    seal(&mut list);
    list[9] = list[9].wrapping_add(more);
    read(rt, label, &list)
}

// A pair that does not rise, after the other checks of a pair, before the sum.
pub fn around_orders(rt: &impl Print) -> io::Result<()> {
    twice(rt, "0-1 twice, 4/3: ", 0x6000_0004, 0x8000_0003, 0)?;
    twice(rt, "0-1 twice, 2/4, hold 3: ", 0x6000_0002, 0x8000_0004, 0)?;
    twice(rt, "0-1 twice, 3/4, hold 3: ", 0x6000_0003, 0x8000_0004, 0)?;
    twice(rt, "the same, a wrong sum: ", 0x6000_0003, 0x8000_0004, 1)
}

// What the writer refuses.
pub fn refused_writing(rt: &impl Print) -> io::Result<()> {
    let none = [0u32, 0, 0, 0];
    let five = [0u32, 1, 7, 10, 1];
    write(rt, "five numbers: ", 2, &five, &none)?;
    let one = [0u32, 1, 7, 10];
    write(rt, "no registers, written: ", 0, &one, &none)?;
    write(rt, "513 registers, written: ", 513, &one, &none)?;
    let register = [0u32, 1, 7, 10, 1024, 0, 1, 3];
    write(rt, "register 1024 in pair 1: ", 2, &register, &none)?;
    let delay = [0u32, 1, 7, 10, 1, 0, 1, 1_000_001];
    write(rt, "delay 1000001 in pair 1: ", 2, &delay, &none)?;
    let order = [0u32, 1, 4, 3];
    write(rt, "4/3 in pair 0: ", 2, &order, &none)?;
    let four = [0u32, 0, 0, 5, 0, 1, 7, 10, 1, 0, 1, 3, 1, 1, 0, 5];
    write(rt, "four pairs in twelve places: ", 2, &four, &none)
}

// What the writer refuses of the needs.
pub fn refused_needs(rt: &impl Print) -> io::Result<()> {
    let one = [0u32, 1, 7, 10];
    write(rt, "three needs of two registers: ", 2, &one, &[1u32, 0, 0])?;
    write(
        rt,
        "five needs of two registers: ",
        2,
        &one,
        &[0u32, 0, 0, 0, 0],
    )?;
    write(rt, "no registers, three needs: ", 0, &one, &[1u32, 0, 0])?;
    write(
        rt,
        "needs 9999, written: ",
        2,
        &[0u32, 1, 9_999, 9_999],
        &[0u32, 9_999, 9_999, 9_999],
    )?;
    write(
        rt,
        "hold 10000 of register 1: ",
        2,
        &one,
        &[0u32, 0, 10_000, 0],
    )?;
    write(
        rt,
        "setup 10000 of register 0: ",
        2,
        &[0u32, 2, 7, 10],
        &[0u32, 10_000, 10_000, 0],
    )
}

// Least delays and holds, and room for needs.
pub fn refused_holds(rt: &impl Print) -> io::Result<()> {
    let one = [0u32, 1, 7, 10];
    write(rt, "hold 7 and least 7: ", 2, &one, &[0u32, 0, 7, 0])?;
    write(
        rt,
        "hold 8 and least 7 in pair 1: ",
        2,
        &[0u32, 0, 1, 3, 0, 1, 7, 10],
        &[0u32, 0, 8, 0],
    )?;
    write(
        rt,
        "4/3 and hold 8: ",
        2,
        &[0u32, 1, 4, 3],
        &[0u32, 0, 8, 0],
    )?;
    let three = [0u32, 0, 0, 5, 0, 1, 7, 10, 1, 0, 1, 3];
    write(
        rt,
        "three pairs and no needs: ",
        2,
        &three,
        &[0u32, 0, 0, 0],
    )?;
    write(
        rt,
        "three pairs and needs in twelve places: ",
        2,
        &three,
        &[0u32, 0, 0, 1],
    )
}

// What the writer refuses of the order: the place is the pair's index.
pub fn refused_orders(rt: &impl Print) -> io::Result<()> {
    let none = [0u32, 0, 0, 0];
    let same = [0u32, 0, 0, 5, 0, 1, 7, 10, 0, 1, 2, 4];
    write(rt, "0-0, 0-1, 0-1, written: ", 2, &same, &none)?;
    let launch = [1u32, 0, 1, 3, 0, 1, 7, 10];
    write(rt, "1-0, 0-1, written: ", 2, &launch, &none)?;
    write(
        rt,
        "1-0, 0-1 7/10, hold 8, written: ",
        2,
        &launch,
        &[0u32, 0, 8, 0],
    )?;
    let capture = [0u32, 1, 7, 10, 0, 0, 0, 5, 2, 0, 0, 5];
    write(rt, "0-1, 0-0, 2-0 of two, written: ", 2, &capture, &none)?;
    let four = [0u32, 0, 0, 5, 0, 1, 7, 10, 1, 0, 1, 3, 1, 0, 1, 3];
    write(rt, "0-0, 0-1, 1-0, 1-0 in twelve places: ", 2, &four, &none)
}
