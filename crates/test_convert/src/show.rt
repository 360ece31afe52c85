// Conversions as text.
use refusals::Refused;
use std::io;
use test_kit::show;

fn converting(rt: &impl Print, r: Result<usize, Refused>) -> io::Result<()> {
    match r {
        Err(refused) => show::refusal(rt, refused),
        Ok(count) => println!(rt; "{count} words"),
    }
}

// Converts a list into a buffer, and shows the answer and every place of the buffer.
pub fn into(rt: &impl Print, label: &str, words: &[u32], answer: &mut [u32]) -> io::Result<()> {
    rt.print(label)?;
    converting(rt, converter::convert(words, answer))?;
    show::numbers(rt, answer)
}

// The same into twelve places that hold 9.
pub fn convert(rt: &impl Print, label: &str, words: &[u32]) -> io::Result<()> {
    into(rt, label, words, &mut [9u32; 12])
}
