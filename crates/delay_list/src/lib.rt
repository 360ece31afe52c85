// Whether a run of words is a delay list, the pairs of an accepted one, and the reader that walks them.
// The contracts cite `list_format`: where a pair stands, what it is, and every check in its order.
#![tactic(auto)]

ghost use Rattle.std.specs.Prelude.{◌≡◌, ◌+◌, ◌-◌, ◌*◌, ◌^◌, ◌<◌, ◌≤◌, true, false, ◌&&◌, [], ◌∷◌, length, nat_lt};
ghost use Rattle.std.specs.Prelude.{Err, IfOk, IfErr};
ghost use Rattle.words.specs.Word.{count_bits, register_bits, launch_of, capture_of, hold_of, setup_of};
ghost use Rattle.timing.specs.Limits.{max_registers, max_period};
ghost use Rattle.refusals.specs.Checks.{no_fault, first_fault, each_check};
ghost use Rattle.refusals.specs.declared.Refusal.TheVariants.{NoNeeds};
ghost use Rattle.list_format.specs.Lists.{word, registers, pair_count, need_words_by, need_words, hold_at, setup_at, needs_of, place_by, pair_place};
ghost use Rattle.list_format.specs.Lists.{place_of, step_of, pair_of, written_at, counting, counting_needs, no_needs};
ghost use Rattle.list_format.specs.Lists.{accepted, UsableList, IsAccepted, PairIn, IsWritten, IsPair, verdict_by, verdict as verdict_of};
ghost use Rattle.list_format.specs.Lists.{head_checks, need_checks, block_checks, kind_checks, value_checks, own_checks, order_check, pair_checks};
ghost use Rattle.list_format.specs.Lists.{end_checks, pairs_checks, body_checks};
ghost use Rattle.list_format.specs.Walk.{next_at, place_after};

use list_format::Counts;
use refusals::{Refusal, Refused, check};
use timing::Pair;
use words::WordKind;

// The place of the first word of pair k after so many words of needs; for k = m, that of the end word.
pub fn pair_place(needs: usize, k: usize) -> usize
    requires { (needs ≤ 2 ^ register_bits) × (k ≤ 2 ^ count_bits) }
    ensures { result ≡ place_by needs k }
{
    3 * k + 1 + needs
}

// How many words of needs stand after the head, by it and the word after it.
fn need_words(head: u32, second: u32) -> usize
    ensures { (result ≡ need_words_by head second) × (result < 2 ^ register_bits) }
{
    if WordKind::Needs.is_of(second) {
        return words::head_registers(head) as usize;
    }
    0
}

// The pair that three words make.
fn pair_of(pair: u32, least: u32, greatest: u32) -> Pair
    ensures { result ≡ pair_of pair least greatest }
{
    Pair {
        launch: words::launch(pair),
        capture: words::capture(pair),
        least: words::payload(least),
        greatest: words::payload(greatest),
    }
}

// 11 and 12: the head word, and the count of words against it and the word after it.
#[tactic(auto, unfolding(refusals::specs::Checks::or_check, refusals::specs::Checks::fault_after))]
fn head_fault(head: u32, second: u32, len: usize) -> Result<(), Refused>
    ensures { result ≡ first_fault (head_checks head second len) }
{
    let n = words::head_registers(head);
    let m = words::head_pairs(head) as usize;
    check(len < 2, Refusal::Length, 0)?;
    check(!WordKind::Head.is_of(head), Refusal::Size, 0)?;
    check(words::head_spare(head) != 0, Refusal::Size, 0)?;
    check(n == 0, Refusal::Size, 0)?;
    check(n > timing::MAX_REGISTERS, Refusal::Size, 0)?;
    check(m > timing::MAX_PAIRS, Refusal::Size, 0)?;
    let size = pair_place(need_words(head, second), m) + 1;
    check(len != size, Refusal::Length, 0)
}

// 13: the three words of a pair, of which the first stands at `at`.
#[tactic(auto, unfolding(refusals::specs::Checks::or_check, refusals::specs::Checks::fault_after))]
fn kind_fault(pair: u32, least: u32, greatest: u32, at: usize) -> Result<(), Refused>
    requires { at < 2 ^ 32 }
    ensures { result ≡ first_fault (kind_checks pair least greatest at) }
{
    check(!WordKind::Pair.is_of(pair), Refusal::Word, at)?;
    check(words::pair_spare(pair) != 0, Refusal::Word, at)?;
    check(!WordKind::Least.is_of(least), Refusal::Word, at + 1)?;
    check(!WordKind::Greatest.is_of(greatest), Refusal::Word, at + 2)
}

// 13: the word of needs of register r.
#[tactic(auto, unfolding(refusals::specs::Checks::or_check, refusals::specs::Checks::fault_after))]
fn need_fault(words: &[u32], r: usize) -> Result<(), Refused>
    requires { 1 + r < length words.now }
    ensures { result ≡ first_fault (need_checks words.now r) }
{
    let w = words[1 + r];
    check(!WordKind::Needs.is_of(w), Refusal::Word, 1 + r)?;
    check(words::needs_spare(w) != 0, Refusal::Word, 1 + r)?;
    check(words::hold(w) > timing::MAX_NEED, Refusal::Word, 1 + r)?;
    check(words::setup(w) > timing::MAX_NEED, Refusal::Word, 1 + r)
}

// Whether the word of needs of register r passes those checks, by tests with no order.
fn need_passes(words: &[u32], r: usize) -> bool
    requires { 1 + r < length words.now }
    ensures { result ≡ true → first_fault (need_checks words.now r) ≡ no_fault }
{
    let w = words[1 + r];
    WordKind::Needs.is_of(w)
        & (words::needs_spare(w) == 0)
        & (words::hold(w) <= timing::MAX_NEED)
        & (words::setup(w) <= timing::MAX_NEED)
}

// 14, 15, 16, 19: the values of a pair in a list of n registers. `hold` is that of the capture register.
#[tactic(auto, unfolding(refusals::specs::Checks::or_check, refusals::specs::Checks::fault_after))]
pub fn value_fault(
    n: u32,
    hold: u32,
    p: Pair,
    at: usize,
    least_at: usize,
    greatest_at: usize,
) -> Result<(), Refused>
    ensures { result ≡ first_fault (value_checks n hold p at least_at greatest_at) }
{
    check(p.launch >= n, Refusal::Register, at)?;
    check(p.capture >= n, Refusal::Register, at)?;
    check(p.least > timing::MAX_DELAY, Refusal::Delay, least_at)?;
    check(p.greatest > timing::MAX_DELAY, Refusal::Delay, greatest_at)?;
    check(p.least > p.greatest, Refusal::Crossed, greatest_at)?;
    check(p.least < hold, Refusal::Hold, least_at)
}

// What pairs are ordered by: the launch register, then the capture register.
pub fn key(launch: u32, capture: u32) -> u64
    ensures { result ≡ launch * max_registers + capture }
{
    (launch as u64) * (timing::MAX_REGISTERS as u64) + (capture as u64)
}

// The same, of a pair word.
fn key_of(pair: u32) -> u64
    ensures { result ≡ launch_of pair * max_registers + capture_of pair }
{
    key(words::launch(pair), words::capture(pair))
}

// 13 and 17: the end word, which stands at `at`.
#[tactic(auto, unfolding(refusals::specs::Checks::or_check, refusals::specs::Checks::fault_after))]
fn end_fault(words: &[u32], at: usize) -> Result<(), Refused>
    requires { at < length words.now }
    ensures { result ≡ first_fault (end_checks words.now at) }
{
    let last = words[at];
    check(!WordKind::End.is_of(last), Refusal::Word, at)?;
    let sum = words::end_payload(words, at);
    check(words::payload(last) != sum, Refusal::Sum, at)
}

// Words of a list, with the count of those that are words of needs, which stand after the head.
#[derive(Clone, Copy)]
pub struct Layout<'a> {
    pub words: &'a [u32],
    pub needs: usize,
    pub ghost counted: { needs ≡ need_words words.now },
    pub ghost inside: { needs < length words.now },
}

impl<'a> Layout<'a> {
    // The layout of a list.
    pub fn of(words: &'a [u32]) -> Layout<'a>
        requires { need_words words.now < length words.now }
        ensures { result.words ≡ words.entry }
    {
        Layout {
            words,
            needs: need_count(words),
        }
    }

    // Whether all words of needs pass their checks. No word ends the loop, so that several are looked at in one step.
    fn needs_pass(self) -> bool
        ensures { result ≡ true → first_fault (each_check (need_checks self.entry.words.now) 0 self.entry.needs) ≡ no_fault }
    {
        let mut pass = true;
        for r in 0..self.needs {
            pass = pass & need_passes(self.words, r);
        }
        pass
    }

    // Whether all needs are 0, in a list with words of needs.
    fn none_needed(self) -> bool
        requires { 0 < self.needs }
        ensures { result ≡ no_needs (needs_of self.entry.words.now) }
    {
        for r in 0..self.needs {
            let w = self.words[1 + r];
            if words::hold(w) != 0 {
                return false;
            }
            if words::setup(w) != 0 {
                return false;
            }
        }
        true
    }

    // 18: words of needs, and all needs are 0.
    #[tactic(auto, unfolding(refusals::specs::Checks::or_check, refusals::specs::Checks::fault_after))]
    fn zero_fault(self) -> Result<(), Refused>
        ensures { result ≡ first_fault ((nat_lt 0 self.entry.needs && no_needs (needs_of self.entry.words.now), NoNeeds, 1) ∷ []) }
    {
        if self.needs == 0 {
            return Ok(());
        }
        check(self.none_needed(), Refusal::NoNeeds, 1)
    }

    // The words of needs, one by one, then 18.
    fn needs_fault(self) -> Result<(), Refused>
        ensures { result ≡ first_fault (block_checks self.entry.words.now self.entry.needs) }
    {
        for r in 0..self.needs {
            need_fault(self.words, r)?;
        }
        self.zero_fault()
    }

    // The same, with no look for the first that fails where all pass.
    fn block_fault(self) -> Result<(), Refused>
        ensures { result ≡ first_fault (block_checks self.entry.words.now self.entry.needs) }
    {
        if self.needs_pass() {
            return self.zero_fault();
        }
        self.needs_fault()
    }

    // The hold need of register r: 0 where there is no word of needs for it.
    pub fn hold(self, r: u32) -> u32
        ensures { result ≡ hold_at self.entry.words.now r }
    {
        if (r as usize) < self.needs {
            return words::hold(self.words[1 + r as usize]);
        }
        0
    }

    // The setup need of register r: 0 where there is no word of needs for it.
    pub fn setup(self, r: u32) -> u32
        ensures { result ≡ setup_at self.entry.words.now r }
    {
        if (r as usize) < self.needs {
            return words::setup(self.words[1 + r as usize]);
        }
        0
    }

    // All checks of pair k but for its order. Where there are words of needs, there are n of them.
    fn own_fault(self, n: u32, k: usize) -> Result<(), Refused>
        requires { (k < 2 ^ count_bits) × (pair_place self.words.now k + 3 ≤ length self.words.now) }
        ensures { result ≡ first_fault (own_checks self.entry.words.now n k) }
    {
        let at = pair_place(self.needs, k);
        let pair = self.words[at];
        let least = self.words[at + 1];
        let greatest = self.words[at + 2];
        kind_fault(pair, least, greatest, at)?;
        let p = pair_of(pair, least, greatest);
        let hold = self.hold(p.capture);
        value_fault(n, hold, p, at, at + 1, at + 2)
    }

    // 20: pair k is not above the one before it, where the order is asked for.
    fn order_fault(self, asked: bool, k: usize) -> Result<(), Refused>
        requires { (k < 2 ^ count_bits) × (pair_place self.words.now k + 3 ≤ length self.words.now) }
        ensures { result ≡ first_fault (order_check asked (written_at self.entry.words.now) k (pair_place self.entry.words.now k) ∷ []) }
    {
        if !asked {
            return Ok(());
        }
        if k == 0 {
            return Ok(());
        }
        let at = pair_place(self.needs, k);
        let last = key_of(self.words[at - 3]);
        check(key_of(self.words[at]) <= last, Refusal::Order, at)
    }

    // All checks of pair k.
    fn pair_fault(self, asked: bool, n: u32, k: usize) -> Result<(), Refused>
        requires { (k < 2 ^ count_bits) × (pair_place self.words.now k + 3 ≤ length self.words.now) }
        ensures { result ≡ first_fault (pair_checks asked self.entry.words.now n k) }
    {
        self.own_fault(n, k)?;
        self.order_fault(asked, k)
    }

    // The pairs, one by one, then the end.
    fn pairs_fault(self, asked: bool, n: u32, m: usize) -> Result<(), Refused>
        requires { (m < 2 ^ count_bits) × (length self.words.now ≡ pair_place self.words.now m + 1) }
        ensures { result ≡ first_fault (pairs_checks asked self.entry.words.now n m) }
    {
        for k in 0..m {
            self.pair_fault(asked, n, k)?;
        }
        end_fault(self.words, pair_place(self.needs, m))
    }

    // The checks of all that stands after the head.
    fn body_fault(self, asked: bool, n: u32, m: usize) -> Result<(), Refused>
        requires { (m < 2 ^ count_bits) × (length self.words.now ≡ pair_place self.words.now m + 1) }
        ensures { result ≡ first_fault (body_checks asked self.entry.words.now n m) }
    {
        self.block_fault()?;
        self.pairs_fault(asked, n, m)
    }

    // Pair k as it is written.
    pub fn written(self, k: usize) -> Pair
        requires { PairIn self.words.now k }
        ensures { IsWritten self.entry.words.now k result }
    {
        let first = pair_place(self.needs, k);
        let least = self.words[first + 1];
        let greatest = self.words[first + 2];
        pair_of(self.words[first], least, greatest)
    }
}

// Word i, or 0 if there is none.
fn word_at(words: &[u32], i: usize) -> u32
    ensures { result ≡ word words.now i }
{
    words.get(i).copied().unwrap_or(0)
}

// The counts of registers and pairs, or the first refusal with its place, with the order asked for or not.
fn verdict_by(words: &[u32], asked: bool) -> Result<Counts, Refused>
    ensures { result ≡ verdict_by asked words.now }
{
    let head = word_at(words, 0);
    let second = word_at(words, 1);
    head_fault(head, second, words.len())?;
    let n = words::head_registers(head);
    let m = words::head_pairs(head);
    let list = Layout {
        words,
        needs: need_words(head, second),
    };
    list.body_fault(asked, n, m as usize)?;
    Ok(Counts {
        registers: n,
        pairs: m,
    })
}

// The counts of registers and pairs, or the first refusal with its place.
pub fn verdict(words: &[u32]) -> Result<Counts, Refused>
    ensures { result ≡ verdict_of words.now }
{
    verdict_by(words, true)
}

// The same for a stored list in any order, which may name a pair more than once: 20 is not asked.
pub fn stored_verdict(words: &[u32]) -> Result<Counts, Refused>
    ensures { result ≡ verdict_by false words.now }
{
    verdict_by(words, false)
}

// How many words of needs a list has.
pub fn need_count(words: &[u32]) -> usize
    ensures { result ≡ need_words words.now }
{
    need_words(word_at(words, 0), word_at(words, 1))
}

// The smallest word of needs. Where there is a pair, a word after the head that is no word of needs is its first, which is smaller.
const FIRST_NEEDS: u32 = 0xA000_0000;

// Pair k as it is written, from its three words.
fn pair_from(words: &[u32], k: usize) -> Pair
    requires { PairIn words.now k }
    ensures { IsWritten words.now k result }
{
    if words[1] >= FIRST_NEEDS {
        let needs = words::head_registers(words[0]) as usize;
        return Layout { words, needs }.written(k);
    }
    Layout { words, needs: 0 }.written(k)
}

// m, the count of pairs.
fn pair_count(words: &[u32]) -> usize
    ensures { result ≡ pair_count words.now }
{
    words::head_pairs(word_at(words, 0)) as usize
}

// How many pairs are left from pair k on.
fn pairs_left(words: &[u32], k: usize) -> usize
    ensures { result ≡ pair_count words.now - k }
{
    pair_count(words).saturating_sub(k)
}

// Pair k, or the end.
fn next_from(words: &[u32], k: usize) -> Option<Pair>
    requires { IsAccepted words.now }
    ensures { result ≡ next_at words.now k }
{
    if 0 < pairs_left(words, k) {
        return Some(pair_from(words, k));
    }
    None
}

// The place after k; the end stays the end.
fn place_after(words: &[u32], k: usize) -> usize
    ensures { result ≡ place_after words.now k }
{
    if pair_count(words) <= k {
        return k;
    }
    k + 1
}

// The reader: the caller's words and the pair that it has come to.
#[derive(Clone, Copy)]
pub struct Reader<'a> {
    pub words: &'a [u32],
    pub at: usize,
}

impl<'a> Reader<'a> {
    // A reader that has come to pair k.
    pub fn new(words: &'a [u32], k: usize) -> Reader<'a>
        ensures { (result.words ≡ words.entry) × (result.at ≡ k) }
    {
        Reader { words, at: k }
    }

    // The pair that it has come to, as it is written, where there is one.
    pub fn pair(self) -> Pair
        requires { PairIn self.words.now self.at }
        ensures { IsWritten self.entry.words.now self.entry.at result }
    {
        pair_from(self.words, self.at)
    }

    // The pair that it has come to, or the end.
    pub fn next(self) -> Option<Pair>
        requires { IsAccepted self.words.now }
        ensures { result ≡ next_at self.entry.words.now self.entry.at }
    {
        next_from(self.words, self.at)
    }

    // The reader one pair further on.
    pub fn advanced(self) -> Reader<'a>
        ensures { (result.words ≡ self.entry.words) × (result.at ≡ place_after self.entry.words.now self.entry.at) }
    {
        let mut next = self;
        next.at = place_after(self.words, self.at);
        next
    }
}

// Pair k as it is written, from a reader that has come to it.
fn written_at(words: &[u32], k: usize) -> Pair
    requires { PairIn words.now k }
    ensures { IsWritten words.now k result }
{
    Reader::new(words, k).pair()
}

// The word of needs of register r.
fn need_at(words: &[u32], r: u32) -> u32
    requires { 1 + r < length words.now }
    ensures { result ≡ word words.now (1 + r) }
{
    words[1 + r as usize]
}

// A pair with a word of needs counted in.
fn with_needs(p: Pair, need: u32) -> Pair
    requires { (hold_of need ≤ p.least) × (p.greatest + setup_of need ≤ max_period) }
    ensures { result ≡ counting (hold_of need) (setup_of need) p }
{
    Pair {
        launch: p.launch,
        capture: p.capture,
        least: p.least - words::hold(need),
        greatest: p.greatest + words::setup(need),
    }
}

// A pair of a list with the needs of its capture register counted in.
fn count_needs(words: &[u32], k: usize, p: Pair) -> Pair
    requires { PairIn words.now k × IsWritten words.now k p }
    ensures { result ≡ counting_needs words.now p }
{
    if words[1] >= FIRST_NEEDS {
        return with_needs(p, need_at(words, p.capture));
    }
    p
}

// Pair k with the needs of its capture register counted in.
pub fn pair_at(words: &[u32], k: usize) -> Pair
    requires { PairIn words.now k }
    ensures { IsPair words.now k result }
{
    count_needs(words, k, written_at(words, k))
}

// A list that pairs can be taken from, with its counts of registers and pairs.
#[derive(Clone, Copy)]
pub struct DelayList<'a> {
    pub words: &'a [u32],
    pub registers: usize,
    pub pairs: usize,
    pub ghost usable: { UsableList words.now registers pairs },
}

impl<'a> DelayList<'a> {
    // The list that an accepted run of words is, or the first refusal with its place.
    pub fn accepted(words: &'a [u32]) -> Result<DelayList<'a>, Refused>
        ensures accepted { IfOk result (λ l. (l.words ≡ words.entry) × (verdict_of words.now ≡ accepted l.registers l.pairs)) }
        ensures refused { IfErr result (λ r. verdict_of words.now ≡ Err r) }
    {
        let counts = verdict(words)?;
        Ok(DelayList {
            words,
            registers: counts.registers as usize,
            pairs: counts.pairs as usize,
        })
    }

    // Pair k, with the needs of its capture register counted in.
    pub fn pair(self, k: usize) -> Pair
        requires { k < self.pairs }
        ensures { IsPair self.entry.words.now k result }
    {
        pair_at(self.words, k)
    }
}

// Where a walk over m pairs begins.
pub fn walk_start(m: usize, down: bool) -> usize
    ensures { 0 < m → result ≡ place_of m down 0 }
{
    if down { m.wrapping_sub(1) } else { 0 }
}

// What takes a walk from place to place, by a sum that wraps.
pub fn walk_step(down: bool) -> usize
    ensures { result ≡ step_of down }
{
    if down { usize::MAX } else { 1 }
}

// The i-th pair of a walk over m pairs: up the list, or from its end if down.
pub fn place(m: usize, i: usize, down: bool) -> usize
    requires { i < m }
    ensures { (result ≡ place_of m down i) × (result < m) }
{
    if down { m - 1 - i } else { i }
}
