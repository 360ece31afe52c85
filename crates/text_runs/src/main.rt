// The programs on what they refuse or find wrong: texts that are empty, faulty, cut at the end of a line, or name register 2 of 2; needs
// after a pair, too large, above a least delay, or of one register of two; lists that are refused, and two that are shown, without needs
// and with them; lists that are not converted; no split; schedules that break hold and setup, are faulty, have a timing too few or one
// too large; schedules with margins of each sign, and of a list without pairs; periods and offsets out of range; a period that works, and
// one that is blocked by a hold rule too; a text that is too long, a directory, output that cannot be written, and no arguments. Then
// texts without needs, with needs in the last line, and with pairs in another order, one of them twice; such a list, and one in order,
// converted; and a text of the largest size, with commas.
#![tactic(auto)]

use std::fs::File;
use std::io;
use std::rt::{Env, Files};
use text_programs::{
    check_from, convert_from, free_from, make_from, show_from, split_from, why_from,
};

fn make<R: Files + Print>(rt: &R, name: &str) -> io::Result<()> {
    let mut input = File::open(rt, name)?;
    make_from(
        &mut input,
        name.as_bytes(),
        &mut io::writer(rt),
        &mut io::writer(rt),
    );
    Ok(())
}

fn show<R: Files + Print>(rt: &R, name: &str) -> io::Result<()> {
    let mut input = File::open(rt, name)?;
    show_from(
        &mut input,
        name.as_bytes(),
        &mut io::writer(rt),
        &mut io::writer(rt),
    );
    Ok(())
}

fn convert<R: Files + Print>(rt: &R, name: &str) -> io::Result<()> {
    let mut input = File::open(rt, name)?;
    convert_from(
        &mut input,
        name.as_bytes(),
        &mut io::writer(rt),
        &mut io::writer(rt),
    );
    Ok(())
}

fn free<R: Files + Print>(rt: &R, name: &str) -> io::Result<()> {
    let mut input = File::open(rt, name)?;
    free_from(
        &mut input,
        name.as_bytes(),
        &mut io::writer(rt),
        &mut io::writer(rt),
    );
    Ok(())
}

// The output is a file that is open for reading.
fn free_to_no_output<R: Files + Print>(rt: &R) -> io::Result<()> {
    let mut input = File::open(rt, "list")?;
    let mut output = File::open(rt, "list")?;
    free_from(&mut input, b"list", &mut output, &mut io::writer(rt));
    Ok(())
}

fn split<R: Files + Print>(rt: &R, period: u32, offset: u32) -> io::Result<()> {
    let mut input = File::open(rt, "list")?;
    split_from(
        &mut input,
        b"list",
        period,
        offset,
        &mut io::writer(rt),
        &mut io::writer(rt),
    );
    Ok(())
}

fn why<R: Files + Print>(rt: &R, list: &str, period: u32) -> io::Result<()> {
    let mut input = File::open(rt, list)?;
    why_from(
        &mut input,
        list.as_bytes(),
        period,
        &mut io::writer(rt),
        &mut io::writer(rt),
    );
    Ok(())
}

fn check<R: Files + Print>(rt: &R, list: &str, period: u32, name: &str) -> io::Result<()> {
    let mut input = File::open(rt, list)?;
    let mut timings = File::open(rt, name)?;
    check_from(
        &mut input,
        list.as_bytes(),
        period,
        &mut timings,
        name.as_bytes(),
        &mut io::writer(rt),
        &mut io::writer(rt),
    );
    Ok(())
}

fn texts<R: Files + Print>(rt: &R) -> io::Result<()> {
    make(rt, "empty")?;
    make(rt, "faulty")?;
    make(rt, "words")?;
    make(rt, "three")?;
    make(rt, "cut")?;
    make(rt, "register")?;
    make(rt, "long")?;
    make(rt, ".")
}

fn needs<R: Files + Print>(rt: &R) -> io::Result<()> {
    make(rt, "after")?;
    make(rt, "need")?;
    make(rt, "hold")?;
    make(rt, "fewer")
}

fn lists<R: Files + Print>(rt: &R) -> io::Result<()> {
    show(rt, "list")?;
    show(rt, "needs")?;
    show(rt, "zero")?;
    show(rt, "held")?;
    show(rt, "twice")?;
    show(rt, "refused")?;
    show(rt, "order")?;
    convert(rt, "refused")?;
    convert(rt, "damaged")?;
    free(rt, "refused")?;
    free_to_no_output(rt)?;
    split(rt, 6, 4)?;
    split(rt, 0, 4)?;
    split(rt, 7, 1_010_000)
}

fn schedules<R: Files + Print>(rt: &R) -> io::Result<()> {
    check(rt, "list", 7, "late")?;
    check(rt, "list", 7, "wide")?;
    check(rt, "list", 7, "word")?;
    check(rt, "list", 7, "few")?;
    check(rt, "list", 7, "high")?;
    check(rt, "list", 1_010_000, "wide")
}

// Margins of 0, above and below it, with needs, and of a list without pairs.
fn margins<R: Files + Print>(rt: &R) -> io::Result<()> {
    check(rt, "list", 7, "met")?;
    check(rt, "list", 10, "met")?;
    check(rt, "list", 5, "met")?;
    check(rt, "needs", 9, "met")?;
    check(rt, "pairless", 7, "met")
}

fn reasons<R: Files + Print>(rt: &R) -> io::Result<()> {
    why(rt, "list", 7)?;
    why(rt, "pairless", 1)?;
    why(rt, "blocked", 6)?;
    why(rt, "list", 0)?;
    why(rt, "list", 1_010_000)?;
    why(rt, "refused", 7)
}

// Without arguments.
fn misused<R: Env + Files + Input + Print>(rt: &R) {
    text_programs::split_at(rt, &mut io::writer(rt), &mut io::writer(rt));
    text_programs::why_not(rt, &mut io::writer(rt), &mut io::writer(rt));
    text_programs::check_schedule(rt, &mut io::writer(rt), &mut io::writer(rt));
}

fn main(rt: HostRuntime) -> io::Result<()> {
    texts(&rt)?;
    needs(&rt)?;
    lists(&rt)?;
    schedules(&rt)?;
    margins(&rt)?;
    reasons(&rt)?;
    misused(&rt);
    make(&rt, "plain")?;
    make(&rt, "last")?;
    make(&rt, "any")?;
    convert(&rt, "order")?;
    convert(&rt, "list")?;
    make(&rt, "largest")
}
