// The program's arguments as numbers.
// The contract cites `specs/Arguments.antt`.
#![tactic(auto)]

ghost use Rattle.std.specs.Prelude.{◌≡◌};
ghost use Rattle.arguments.specs.Arguments.{argument_of};

use scan::MAX_NUMBERS;
use std::rt::Env;

// The number that the text of an argument is; none where it is not one number in decimal.
pub fn number_of(text: &[u8]) -> Option<u32>
    ensures { result ≡ argument_of text.now }
{
    let mut numbers = [0u32; MAX_NUMBERS];
    match scan::scan(text, false, &mut numbers) {
        Ok(found) if found.count == 1 => Some(numbers[0]),
        _ => None,
    }
}

// The places for an argument. A longer one is no number.
const SPACE: usize = 4096;

// Argument k of the program, if it is one number in decimal.
pub fn number<R: Env>(rt: &R, k: usize) -> Option<u32> {
    let mut space = [0u8; SPACE];
    let size = rt.arg(k, &mut space).ok()?;
    number_of(&space[..size])
}
