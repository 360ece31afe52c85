// Calls on small lists, with every place of the buffer.
use pooling::{PoolPart, PoolRefused};
use refusals::{Refusal, Refused};
use test_kit::places::{DIRT, holds, kept};

// The words of the longest list that is pooled here, of eight registers and 24 pairs; and two places more.
pub const ROOM: usize = 84;

// Pools two lists into the first places of a buffer.
pub fn pool_in<'a>(
    first: &'a [u32],
    second: &'a [u32],
    answer: &mut [u32],
    places: usize,
) -> Result<usize, PoolRefused> {
    if answer.len() < places {
        return pooling::pool(first, second, answer);
    }
    pooling::pool(first, second, &mut answer[..places])
}

// Whether two lists pooled in so many places are the expected words; later places of the buffer are kept.
fn pools_in<'a>(first: &'a [u32], second: &'a [u32], expected: &[u32], places: usize) -> bool {
    let mut answer = [DIRT; ROOM];
    let said = pool_in(first, second, &mut answer, places);
    said == Ok(expected.len()) && holds(&answer, expected)
}

pub fn pools<'a>(first: &'a [u32], second: &'a [u32], expected: &[u32]) -> bool {
    pools_in(first, second, expected, ROOM)
}

// The same in as many places as there are words.
pub fn fits<'a>(first: &'a [u32], second: &'a [u32], expected: &[u32]) -> bool {
    pools_in(first, second, expected, expected.len())
}

// Whether pooling is refused, for neither list, in the first places of a buffer, which is kept.
fn refused_in<'a>(first: &'a [u32], second: &'a [u32], refusal: Refusal, places: usize) -> bool {
    let mut answer = [DIRT; ROOM];
    let said = pool_in(first, second, &mut answer, places);
    let refused = PoolRefused {
        of: PoolPart::Call,
        refused: Refused { refusal, place: 0 },
    };
    said == Err(refused) && kept(&answer, 0)
}

pub fn refused<'a>(first: &'a [u32], second: &'a [u32], refusal: Refusal) -> bool {
    refused_in(first, second, refusal, ROOM)
}

// Whether a place fewer than the pooled list has words is too short.
pub fn short<'a>(first: &'a [u32], second: &'a [u32], count: usize) -> bool {
    match count.checked_sub(1) {
        None => false,
        Some(places) => refused_in(first, second, Refusal::Room, places),
    }
}
