// Plans as text.
ghost use Rattle.std.specs.Prelude.{◌≤◌};

use std::io;
use test_kit::show;

// The common, the free and the two-timing period of a list of two registers, and the offset, with so many places of scratch.
pub fn plan<const PLACES: usize>(rt: &impl Print, label: &str, words: &[u32]) -> io::Result<()>
    requires { PLACES ≤ 64 }
{
    let mut answer = [9u32; 4];
    let mut scratch = [9u32; PLACES];
    rt.print(label)?;
    match planner::plan(words, &mut answer, &mut scratch) {
        Err(refused) => show::refusal(rt, refused),
        Ok(p) => show::numbers(rt, &[p.common, p.free, p.two, p.offset]),
    }
}
