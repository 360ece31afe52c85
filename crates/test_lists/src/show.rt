// The answers of reading and writing, as text.
use list_format::Counts;
use refusals::Refused;
use std::io;
use test_kit::show;

pub fn reading(rt: &impl Print, r: Result<Counts, Refused>) -> io::Result<()> {
    match r {
        Err(refused) => show::refusal(rt, refused),
        Ok(Counts { registers, pairs }) => println!(rt; "{registers} registers, {pairs} pairs"),
    }
}

pub fn writing(rt: &impl Print, r: Result<usize, Refused>) -> io::Result<()> {
    match r {
        Err(refused) => show::refusal(rt, refused),
        Ok(words) => println!(rt; "{words} words"),
    }
}
