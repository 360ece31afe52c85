// Pools two lists of one chip, as cold and hot: a list that asks for what each of the two asks for.
// The contract cites `specs/Pool.antt`; how both lists are walked together is said in `merging`.
#![tactic(auto)]

ghost use Rattle.std.specs.Prelude.{◌≡◌, ◌&&◌, ◌++◌, ◌+◌, ◌^◌, ◌<◌, ◌≤◌, eqb, length, take};
ghost use Rattle.buffers.specs.Over.{over};
ghost use Rattle.words.specs.Word.{count_bits};
ghost use Rattle.refusals.specs.Checks.{first_fault};
ghost use Rattle.list_format.specs.Lists.{registers, hold_at, setup_at, IsAccepted};
ghost use Rattle.list_format.specs.Write.{three_of};
ghost use Rattle.converter.specs.Convert.{strung};
ghost use Rattle.merging.specs.Merge.{pooled_pairs};
ghost use Rattle.pooling.specs.Pool.{number_of_part, part_of, pooled, same_needs, both_checks, Listed, BothIn, PoolRoom, PooledAs};

use delay_list::Layout;
use refusals::{Refusal, Refused, check};

// What a refusal of pooling is of: the call of both lists, or one of the two.
#[derive(Clone, Copy, Debug, PartialEq, Eq)]
pub enum PoolPart {
    Call,
    First,
    Second,
}

impl PoolPart {
    // 1 and 2 for the two lists, 0 for neither.
    pub fn number(self) -> u32
        ensures { result ≡ number_of_part self }
    {
        match self {
            PoolPart::Call => 0,
            PoolPart::First => 1,
            PoolPart::Second => 2,
        }
    }

    // What was found of this part.
    #[tactic(auto, unfolding(crate::specs::Pool::part_of))]
    fn of<T>(self, found: Result<T, Refused>) -> Result<T, PoolRefused>
        ensures { result ≡ part_of self found }
    {
        match found {
            Ok(x) => Ok(x),
            Err(refused) => Err(PoolRefused { of: self, refused }),
        }
    }
}

// A refusal of pooling, and what it is of.
#[derive(Clone, Copy, Debug, PartialEq, Eq)]
pub struct PoolRefused {
    pub of: PoolPart,
    pub refused: Refused,
}

// Whether register r has the same needs in both lists.
fn same_at(first: Layout, second: Layout, r: u32) -> bool
    ensures { result ≡ eqb (hold_at first.entry.words.now r) (hold_at second.entry.words.now r)
        && eqb (setup_at first.entry.words.now r) (setup_at second.entry.words.now r) }
{
    let hold = first.hold(r) == second.hold(r);
    let setup = first.setup(r) == second.setup(r);
    hold & setup
}

// Whether the first n registers have the same needs in both lists.
fn same_needs(first: Layout, second: Layout, n: u32) -> bool
    ensures { result ≡ same_needs first.entry.words.now second.entry.words.now n }
{
    let mut same = true;
    for r in 0..n {
        same = same & same_at(first, second, r);
    }
    same
}

// How many pairs are met where both lists are walked together, until one of them, of m and k pairs, runs out; with those left unread.
fn count_walked(first: Layout, m: usize, second: Layout, k: usize) -> usize
    requires { Listed first.words.now m × Listed second.words.now k }
    ensures { (result ≡ length (pooled_pairs first.entry.words.now second.entry.words.now)) × (result ≤ m + k) }
{
    let mut i = 0;
    let mut j = 0;
    let mut count = 0;
    // A turn takes one list on, or both, so that no range counts the turns.
    while i < m && j < k {
        let p = first.written(i);
        let q = second.written(j);
        i = merging::past(i, p, q);
        j = merging::past(j, q, p);
        count += 1;
    }
    count + (m - i) + (k - j)
}

// How many pairs the pooled list has.
fn count_pooled(first: Layout, second: Layout) -> usize
    requires { IsAccepted first.words.now × IsAccepted second.words.now }
    ensures { (result ≡ length (pooled_pairs first.entry.words.now second.entry.words.now)) × (result ≤ 2 ^ count_bits) }
{
    let m = relist::pair_count(first.words);
    let k = relist::pair_count(second.words);
    count_walked(first, m, second, k)
}

// 21, 22 and 2, for so many pooled pairs and places that they take.
#[tactic(auto, unfolding(refusals::specs::Checks::or_check, refusals::specs::Checks::fault_after))]
fn both_fault(
    first: Layout,
    second: Layout,
    n: u32,
    other: u32,
    count: usize,
    places: usize,
    room: usize,
) -> Result<(), Refused>
    requires { BothIn first.words.now second.words.now n other count places }
    ensures { result ≡ first_fault (both_checks first.entry.words.now second.entry.words.now room) }
{
    check(n != other, Refusal::Unlike, 0)?;
    let same = same_needs(first, second, n);
    check(!same, Refusal::Unlike, 0)?;
    check(count > timing::MAX_PAIRS, Refusal::Pairs, 0)?;
    check(room < places, Refusal::Room, 0)
}

// The words of the pooled pairs, after the head and the words of needs: of those that are met, then the unread words of one of the lists.
fn put_pairs(first: Layout, second: Layout, count: usize, answer: &mut [u32])
    requires { PoolRoom first.words.now second.words.now first.needs count (length answer.old) }
    ensures { answer.new
        ≡ over (take (1 + first.entry.needs) answer.old ++ strung three_of (pooled_pairs first.entry.words.now second.entry.words.now)) answer.old }
{
    let place = delay_list::pair_place(first.needs, 0);
    let rest = merging::merge(first.words, second.words, place, answer);
    let end = delay_list::pair_place(first.needs, count);
    answer[end - rest.len()..end].copy_from_slice(rest);
}

// The pooled list, in the first places of the buffer.
fn put_pooled(first: Layout, second: Layout, n: u32, count: usize, answer: &mut [u32])
    requires { (n ≡ registers first.words.now) × PoolRoom first.words.now second.words.now first.needs count (length answer.old) }
    ensures { answer.new ≡ over (pooled first.entry.words.now second.entry.words.now) answer.old }
{
    converter::put_front(first.words, n, count, first.needs, answer);
    put_pairs(first, second, count, answer);
    write_list::put_end(answer, delay_list::pair_place(first.needs, count));
}

// Pools two accepted lists, of n and `other` registers.
fn pool_accepted(
    first: Layout,
    second: Layout,
    n: u32,
    other: u32,
    answer: &mut [u32],
) -> Result<usize, PoolRefused>
    requires { (IsAccepted first.words.now × (n ≡ registers first.words.now)) × (IsAccepted second.words.now × (other ≡ registers second.words.now)) }
    ensures { PooledAs first.entry.words.now second.entry.words.now answer.old answer.new result }
{
    let count = count_pooled(first, second);
    let places = delay_list::pair_place(first.needs, count) + 1;
    let found = both_fault(first, second, n, other, count, places, answer.len());
    PoolPart::Call.of(found)?;
    put_pooled(first, second, n, count, answer);
    Ok(places)
}

// Pools two lists. The count of words is returned, and the pooled list fills the first places of the buffer: the pairs of both in order, those
// of the same registers joined, with the smaller least and the larger greatest delay; later places keep their contents. Refusals 11 to 20 of
// the first list, then of the second, each saying which; then 21: other counts of registers or other needs; 22: more than 2,048 pooled pairs;
// 2: a buffer that is shorter than the pooled list. A refusal changes nothing.
pub fn pool(first: &[u32], second: &[u32], answer: &mut [u32]) -> Result<usize, PoolRefused>
    ensures { PooledAs first.now second.now answer.old answer.new result }
{
    let one = PoolPart::First.of(delay_list::verdict(first))?;
    let other = PoolPart::Second.of(delay_list::verdict(second))?;
    let left = Layout::of(first);
    let right = Layout::of(second);
    pool_accepted(left, right, one.registers, other.registers, answer)
}
