// Pooling as text.
use pooling::{PoolPart, PoolRefused};
use std::io;
use test_kit::show;

// A refusal, with the list that it is of.
pub fn refusal(rt: &impl Print, r: PoolRefused) -> io::Result<()> {
    match r.of {
        PoolPart::Call => {}
        PoolPart::First => rt.print("list 1 ")?,
        PoolPart::Second => rt.print("list 2 ")?,
    }
    show::refusal(rt, r.refused)
}

fn told(rt: &impl Print, r: Result<usize, PoolRefused>) -> io::Result<()> {
    match r {
        Err(refused) => refusal(rt, refused),
        Ok(count) => println!(rt; "{count} words"),
    }
}

// Pools two lists into a buffer, and shows the answer and every place of the buffer.
pub fn into<'a>(
    rt: &impl Print,
    label: &str,
    first: &'a [u32],
    second: &'a [u32],
    answer: &mut [u32],
) -> io::Result<()> {
    rt.print(label)?;
    told(rt, pooling::pool(first, second, answer))?;
    show::numbers(rt, answer)
}

// The same into fourteen places that hold 9.
pub fn pool<'a>(
    rt: &impl Print,
    label: &str,
    first: &'a [u32],
    second: &'a [u32],
) -> io::Result<()> {
    into(rt, label, first, second, &mut [9u32; 14])
}
