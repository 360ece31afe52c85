// The program `plan` on what it refuses and on faults of input and output: a list whose second pair names register 2 of 2, one with a
// pair twice, a text in place of a list, a list of 32 pairs, which begins with a space and names register 7 of 7, a list of the largest
// size with four bytes more, a directory, input that is not open, output that cannot be written.
// Then a list of the largest size, with needs, and what the plain planner of the benchmark prints for it.
#![tactic(auto)]

use print_plan::print_plan;
use std::fs::File;
use std::io;
use std::io::{Error, Read};
use std::rt::Files;

// Input that is not open: each read fails as it does at a descriptor that is none.
#[derive(Drop)]
struct NotOpen;

// The system's number of that error.
const BAD_DESCRIPTOR: i32 = 9;

impl Read for NotOpen {
    fn read(&mut self, _buf: &mut [u8]) -> io::Result<usize> {
        Err(Error::from_raw_os_error(BAD_DESCRIPTOR))
    }
}

fn plan<R: Files + Print>(rt: &R, name: &str) -> io::Result<()> {
    let mut input = File::open(rt, name)?;
    print_plan(
        &mut input,
        name.as_bytes(),
        &mut io::writer(rt),
        &mut io::writer(rt),
    );
    Ok(())
}

fn plan_not_open<R: Print>(rt: &R) {
    print_plan(&mut NotOpen, b"", &mut io::writer(rt), &mut io::writer(rt));
}

// The output is a file that is open for reading.
fn plan_to_no_output<R: Files + Print>(rt: &R) -> io::Result<()> {
    let mut input = File::open(rt, "P")?;
    let mut output = File::open(rt, "P")?;
    print_plan(&mut input, b"P", &mut output, &mut io::writer(rt));
    Ok(())
}

fn main(rt: HostRuntime) -> io::Result<()> {
    plan(&rt, "refused")?;
    plan(&rt, "twice")?;
    plan(&rt, "P.txt")?;
    plan(&rt, "space")?;
    plan(&rt, "too_long")?;
    plan(&rt, ".")?;
    plan_not_open(&rt);
    plan_to_no_output(&rt)?;
    plan(&rt, "largest")
}
