// Job 1, writing: a delay list from plain numbers, four for each pair and two for each register.
// The contract cites `list_format`: `specs/Write.antt` for the outcome, `specs/RoundTrip.antt` for the whole promise.
#![tactic(auto)]

ghost use Rattle.std.specs.Prelude.{◌≡◌, false, [], ◌∷◌, ◌++◌, ◌+◌, ◌*◌, ◌^◌, ◌<◌, ◌≤◌, length, take, drop, set};
ghost use Rattle.buffers.specs.Run.{run};
ghost use Rattle.buffers.specs.Over.{over};
ghost use Rattle.words.specs.Word.{count_bits, register_bits, head_word, end_word, checksum};
ghost use Rattle.refusals.specs.Checks.{first_fault};
ghost use Rattle.list_format.specs.Lists.{place_by, no_needs, order_check};
ghost use Rattle.list_format.specs.Write.{given_pair, given_hold, given_needs, FitsWords, PairsFit, NeedsFit, one_of, three_of};
ghost use Rattle.list_format.specs.Write.{words_of, end_place, count_checks, given_need_checks, given_checks, given_pairs, given_body};
ghost use Rattle.list_format.specs.Write.{write_checks, GivenIn};
ghost use Rattle.list_format.specs.RoundTrip.{WrittenBy, WrittenAs};

use refusals::{Refusal, Refused, check};
use timing::Pair;
use words::WordKind;

// Pair k of the numbers.
fn given_pair(numbers: &[u32], k: usize) -> Pair
    requires { 4 * k + 4 ≤ length numbers.now }
    ensures { result ≡ given_pair numbers.now k }
{
    let at = 4 * k;
    Pair {
        launch: numbers[at],
        capture: numbers[at + 1],
        least: numbers[at + 2],
        greatest: numbers[at + 3],
    }
}

// The hold need of register r, 0 if there is none.
fn given_hold(needs: &[u32], r: u32) -> u32
    ensures { result ≡ given_hold needs.now r }
{
    needs.get(2 * r as usize).copied().unwrap_or(0)
}

// Whether all needs are 0.
pub fn none_needed(needs: &[u32]) -> bool
    ensures { result ≡ no_needs needs.now }
{
    needs.iter().all(|x| *x == 0)
}

// How many words of needs are written.
fn given_needs(n: u32, needs: &[u32]) -> usize
    ensures { result ≡ given_needs n needs.now }
{
    if none_needed(needs) {
        return 0;
    }
    n as usize
}

// 11 and 12: the count of numbers, the counts of registers and pairs, and the count of needs.
#[tactic(auto, unfolding(refusals::specs::Checks::or_check, refusals::specs::Checks::fault_after))]
fn count_fault(n: u32, len: usize, needs: usize) -> Result<(), Refused>
    ensures { result ≡ first_fault (count_checks n len needs) }
{
    check(len % 4 != 0, Refusal::Length, 0)?;
    check(n == 0, Refusal::Size, 0)?;
    check(n > timing::MAX_REGISTERS, Refusal::Size, 0)?;
    check(len / 4 > timing::MAX_PAIRS, Refusal::Size, 0)?;
    check(needs != 2 * n as usize, Refusal::Length, 0)
}

// 13: the needs of register r.
#[tactic(auto, unfolding(refusals::specs::Checks::or_check, refusals::specs::Checks::fault_after))]
fn need_fault(needs: &[u32], r: usize) -> Result<(), Refused>
    requires { 2 * r + 1 < length needs.now }
    ensures { result ≡ first_fault (given_need_checks needs.now r) }
{
    check(needs[2 * r] > timing::MAX_NEED, Refusal::Word, r)?;
    check(needs[2 * r + 1] > timing::MAX_NEED, Refusal::Word, r)
}

// 20: pair k is not above the one before it, where the order is asked for.
fn order_fault(numbers: &[u32], asked: bool, k: usize) -> Result<(), Refused>
    requires { 4 * k + 4 ≤ length numbers.now }
    ensures { result ≡ first_fault (order_check asked (given_pair numbers.now) k k ∷ []) }
{
    if !asked {
        return Ok(());
    }
    if k == 0 {
        return Ok(());
    }
    let last = given_pair(numbers, k - 1);
    let p = given_pair(numbers, k);
    let below = delay_list::key(last.launch, last.capture);
    check(
        delay_list::key(p.launch, p.capture) <= below,
        Refusal::Order,
        k,
    )
}

// The words of needs of the first `count` registers, after the head.
fn put_needs(needs: &[u32], count: usize, answer: &mut [u32])
    requires { NeedsFit needs.now count × ((2 * count ≤ length needs.now) × (1 + count ≤ length answer.old)) }
    ensures { answer.new ≡ over (take 1 answer.old ++ run (one_of needs.now) count) answer.old }
{
    for r in 0..count {
        answer[1 + r] = words::needs_word(needs[2 * r], needs[2 * r + 1]);
    }
}

// The head and the words of needs.
fn put_head(n: u32, m: usize, needs: &[u32], count: usize, answer: &mut [u32])
    requires { ((n < 2 ^ register_bits) × (m < 2 ^ count_bits))
        × (NeedsFit needs.now count × ((2 * count ≤ length needs.now) × (1 + count ≤ length answer.old))) }
    ensures { answer.new ≡ over (head_word n m ∷ run (one_of needs.now) count) answer.old }
{
    answer[0] = words::head_word(n, m as u32);
    put_needs(needs, count, answer);
}

// The three words of a pair, stored from `at` on.
pub fn put(answer: &mut [u32], at: usize, p: Pair)
    requires { (at + 3 ≤ length answer.old) × FitsWords p }
    ensures { answer.new ≡ take at answer.old ++ (three_of p ++ drop (at + 3) answer.old) }
{
    answer[at] = words::pair_word(p.launch, p.capture);
    answer[at + 1] = WordKind::Least.word(p.least);
    answer[at + 2] = WordKind::Greatest.word(p.greatest);
}

// The words of all m pairs, after the head and `count` words of needs.
fn put_pairs(numbers: &[u32], count: usize, m: usize, answer: &mut [u32])
    requires { PairsFit numbers.now m
        × (((count < 2 ^ register_bits) × (m < 2 ^ count_bits)) × ((4 * m ≤ length numbers.now) × (place_by count m ≤ length answer.old))) }
    ensures { answer.new
        ≡ over (take (1 + count) answer.old ++ run (λ k. three_of (given_pair numbers.now k)) m) answer.old }
{
    for k in 0..m {
        let p = given_pair(numbers, k);
        put(answer, delay_list::pair_place(count, k), p);
    }
}

// The end word, at the place after the words that it sums up.
pub fn put_end(answer: &mut [u32], at: usize)
    requires { at < length answer.old }
    ensures { answer.new ≡ set answer.old at (end_word (checksum (take at answer.old))) }
{
    let sum = words::end_payload(answer, at);
    answer[at] = WordKind::End.word(sum);
}

// What a list is written from: the count of registers, the numbers of the pairs, the needs, and how many words of needs are written.
#[derive(Clone, Copy)]
struct Given<'a> {
    registers: u32,
    numbers: &'a [u32],
    needs: &'a [u32],
    count: usize,
    ghost counted: { count ≡ given_needs registers needs.now },
}

impl<'a> Given<'a> {
    // 14, 15, 16, 19 and 20: pair k.
    fn pair_fault(self, asked: bool, k: usize) -> Result<(), Refused>
        requires { 4 * k + 4 ≤ length self.numbers.now }
        ensures { result ≡ first_fault (given_checks asked self.entry.registers self.entry.numbers.now self.entry.needs.now k) }
    {
        let p = given_pair(self.numbers, k);
        let hold = given_hold(self.needs, p.capture);
        delay_list::value_fault(self.registers, hold, p, k, k, k)?;
        order_fault(self.numbers, asked, k)
    }

    // The pairs one by one, then 2.
    fn pairs_fault(self, asked: bool, m: usize, room: usize) -> Result<(), Refused>
        requires { (self.count < 2 ^ register_bits) × ((m < 2 ^ count_bits) × (4 * m ≤ length self.numbers.now)) }
        ensures { result ≡ first_fault (given_pairs asked self.entry.registers self.entry.numbers.now self.entry.needs.now m room) }
    {
        for k in 0..m {
            self.pair_fault(asked, k)?;
        }
        let places = delay_list::pair_place(self.count, m) + 1;
        check(room < places, Refusal::Room, 0)
    }

    // The needs register by register, then the pairs and the room.
    fn body_fault(self, asked: bool, m: usize, room: usize) -> Result<(), Refused>
        requires { (self.count < 2 ^ register_bits)
            × ((2 * self.registers ≤ length self.needs.now) × ((m < 2 ^ count_bits) × (4 * m ≤ length self.numbers.now))) }
        ensures { result ≡ first_fault (given_body asked self.entry.registers self.entry.numbers.now self.entry.needs.now m room) }
    {
        for r in 0..self.registers as usize {
            need_fault(self.needs, r)?;
        }
        self.pairs_fault(asked, m, room)
    }

    // The first refusal of a call, with `room` places to write to.
    fn fault(self, asked: bool, room: usize) -> Result<(), Refused>
        ensures { result ≡ first_fault (write_checks asked self.entry.registers self.entry.numbers.now self.entry.needs.now room) }
    {
        count_fault(self.registers, self.numbers.len(), self.needs.len())?;
        let m = self.numbers.len() / 4;
        self.body_fault(asked, m, room)
    }

    // The whole list, in the first places of the buffer. The answer is the count of words.
    fn put(self, answer: &mut [u32]) -> usize
        requires { GivenIn self.registers self.numbers.now self.needs.now
            × (end_place self.registers self.numbers.now self.needs.now < length answer.old) }
        ensures { (result ≡ end_place self.entry.registers self.entry.numbers.now self.entry.needs.now + 1)
            × (answer.new ≡ over (words_of self.entry.registers self.entry.numbers.now self.entry.needs.now) answer.old) }
    {
        let m = self.numbers.len() / 4;
        put_head(self.registers, m, self.needs, self.count, answer);
        put_pairs(self.numbers, self.count, m, answer);
        let at = delay_list::pair_place(self.count, m);
        put_end(answer, at);
        at + 1
    }
}

// Writes a list, with the order of its pairs asked for or not.
fn write_by(
    n: u32,
    numbers: &[u32],
    needs: &[u32],
    asked: bool,
    answer: &mut [u32],
) -> Result<usize, Refused>
    ensures { WrittenBy asked n numbers.now needs.now answer.old answer.new result }
{
    let given = Given {
        registers: n,
        numbers,
        needs,
        count: given_needs(n, needs),
    };
    given.fault(asked, answer.len())?;
    Ok(given.put(answer))
}

// Writes the delay list of n registers whose pairs are given by four numbers each: launch, capture, least, greatest; and whose needs by two for
// each register: hold, setup. The count of words is returned and that many places are filled; later places keep their contents. A refusal
// changes nothing.
pub fn write(n: u32, numbers: &[u32], needs: &[u32], answer: &mut [u32]) -> Result<usize, Refused>
    ensures { WrittenAs n numbers.now needs.now answer.old answer.new result }
{
    write_by(n, numbers, needs, true, answer)
}

// Writes a list whose pairs come in any order and may repeat, as it is given: 20 is not asked. It is to be converted before any job takes it.
pub fn write_stored(
    n: u32,
    numbers: &[u32],
    needs: &[u32],
    answer: &mut [u32],
) -> Result<usize, Refused>
    ensures { WrittenBy false n numbers.now needs.now answer.old answer.new result }
{
    write_by(n, numbers, needs, false, answer)
}
