// Lines of text on standard output.
use refusals::Refused;
use std::io;

// A refusal, on a line.
pub fn refusal(rt: &impl Print, r: Refused) -> io::Result<()> {
    println!(rt; "refused {} at {}", r.refusal.number(), r.place)
}

// Numbers, on a line.
pub fn numbers(rt: &impl Print, xs: &[u32]) -> io::Result<()> {
    for x in xs {
        print!(rt; " {x}")?;
    }
    println!(rt; "")
}
