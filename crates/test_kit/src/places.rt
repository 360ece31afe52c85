// Buffers before and after a call.
ghost use Rattle.std.specs.Prelude.{◌≤◌, length};

// Stands in every place of a buffer before a call.
pub const DIRT: u32 = 0xDEAD_BEEF;

// Whether two buffers hold the same in their first `count` places.
pub fn same(a: &[u32], b: &[u32], count: usize) -> bool {
    a.get(..count).is_some_and(|x| b.starts_with(x))
}

// Whether the places from `from` on are as they were made dirty.
pub fn kept(buffer: &[u32], from: usize) -> bool {
    buffer.iter().skip(from).all(|x| *x == DIRT)
}

// Whether a buffer holds these and is kept behind them.
pub fn holds(buffer: &[u32], expected: &[u32]) -> bool {
    buffer.starts_with(expected) && kept(buffer, expected.len())
}

// Whether a scratch is zero in its first `count` places, and kept behind.
pub fn cleared(scratch: &[u32], count: usize) -> bool {
    scratch.get(..count).is_some_and(zero) && kept(scratch, count)
}

// The first `count` places, or all if there are fewer.
pub fn front<T>(s: &[T], count: usize) -> &[T]
    ensures { length result.now ≤ length s.now }
{
    s.get(..count).unwrap_or(s)
}

// The places from `from` on, or all if there are fewer.
pub fn rest<T>(s: &[T], from: usize) -> &[T] {
    s.get(from..).unwrap_or(s)
}

// Whether all places are zero.
pub fn zero(buffer: &[u32]) -> bool {
    buffer.iter().all(|x| *x == 0)
}
