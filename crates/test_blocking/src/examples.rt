// Worked examples, and what is refused.
use blocking::Blocked;
use refusals::Refused;
use std::io;
use test_kit::lists::{List, P, P_NEEDS, TWICE, needless, needy};
use test_kit::places::{DIRT, front, kept};
use test_kit::show;

fn show_reason(rt: &impl Print, r: Result<Option<Blocked>, Refused>) -> io::Result<()> {
    match r {
        Err(refused) => show::refusal(rt, refused),
        Ok(None) => rt.println("workable"),
        Ok(
            Some(
                Blocked {
                    register,
                    first,
                    second,
                },
            ),
        ) => println!(rt; "blocked at {register} by {first} and {second} steps"),
    }
}

// A list at a period, with two places more than the answer of two registers takes, which held 9.
fn try_at(rt: &impl Print, label: &str, list: List<'_>, period: u32) -> io::Result<()> {
    let mut words = [0u32; 16];
    let mut answer = [9u32; 10];
    let mut scratch = [9u32; 32];
    let given = list.write(&mut words);
    rt.print(label)?;
    show_reason(
        rt,
        blocking::why_not(given, period, &mut answer, &mut scratch),
    )?;
    show::numbers(rt, &answer)
}

pub fn answers(rt: &impl Print) -> io::Result<()> {
    let p = needless(2, &P);
    let with_needs = needy(&P, &P_NEEDS);
    let own = needless(1, &[[0, 0, 0, 5]]);
    try_at(rt, "P at 6: ", p, 6)?;
    try_at(rt, "P at 7: ", p, 7)?;
    try_at(rt, "P at 1009999: ", p, 1_009_999)?;
    try_at(rt, "P with needs at 7: ", with_needs, 7)?;
    try_at(rt, "P with needs at 8: ", with_needs, 8)?;
    try_at(rt, "0-0 0/5 at 4: ", own, 4)?;
    try_at(rt, "0-0 0/5 at 5: ", own, 5)?;
    try_at(rt, "no pairs at 1: ", needless(2, &[]), 1)
}

// A call with so many words of P, and whether both buffers are kept.
fn refused(
    rt: &impl Print,
    label: &str,
    count: usize,
    period: u32,
    answer: &mut [u32],
    scratch: &mut [u32],
) -> io::Result<()> {
    let mut words = [0u32; 8];
    let given = front(needless(2, &P).write(&mut words), count);
    rt.print(label)?;
    show_reason(rt, blocking::why_not(given, period, answer, scratch))?;
    if !kept(answer, 0) || !kept(scratch, 0) {
        rt.println("a buffer was changed")?;
    }
    Ok(())
}

// P takes 8 words, 8 places for the answer and 20 places of scratch. One place less of both, of the first, and of the second.
fn both_short(rt: &impl Print, label: &str, count: usize, period: u32) -> io::Result<()> {
    let mut answer = [DIRT; 7];
    let mut scratch = [DIRT; 19];
    refused(rt, label, count, period, &mut answer, &mut scratch)
}

fn answer_short(rt: &impl Print, label: &str, period: u32) -> io::Result<()> {
    let mut answer = [DIRT; 7];
    let mut scratch = [DIRT; 20];
    refused(rt, label, 8, period, &mut answer, &mut scratch)
}

fn scratch_short(rt: &impl Print, label: &str, period: u32) -> io::Result<()> {
    let mut answer = [DIRT; 8];
    let mut scratch = [DIRT; 19];
    refused(rt, label, 8, period, &mut answer, &mut scratch)
}

// 0-1 twice over, with the faults of the calls that follow.
fn twice(rt: &impl Print) -> io::Result<()> {
    let mut answer = [DIRT; 7];
    let mut scratch = [DIRT; 19];
    rt.print("0-1 twice: ")?;
    show_reason(rt, blocking::why_not(&TWICE, 0, &mut answer, &mut scratch))
}

// In the order in which the refusals count: the first calls have the faults of the later ones too. No split of P works at 6; at 7 one does.
pub fn refusals(rt: &impl Print) -> io::Result<()> {
    both_short(rt, "no words: ", 0, 0)?;
    both_short(rt, "one word less: ", 7, 0)?;
    twice(rt)?;
    both_short(rt, "period 0: ", 8, 0)?;
    both_short(rt, "period 1010000: ", 8, 1_010_000)?;
    both_short(rt, "7 places and 19 of scratch at 6: ", 8, 6)?;
    both_short(rt, "at 7: ", 8, 7)?;
    answer_short(rt, "7 places at 6: ", 6)?;
    answer_short(rt, "at 7: ", 7)?;
    scratch_short(rt, "19 places of scratch at 6: ", 6)?;
    scratch_short(rt, "at 7: ", 7)
}
