// Why no split works at a period, whatever its offset: two chains of forced choices at a register.
// The contracts cite `specs/Blocking.antt`; chains are defined in `chain_laws`.
#![tactic(auto)]

ghost use Rattle.std.specs.Prelude.{◌≡◌, [], ◌∷◌, ◌++◌, ◌+◌, ◌*◌, ◌/◌, ◌%◌, ◌≤◌, ◌<◌, length, take, Ok};
ghost use Rattle.timing.specs.Limits.{per_pair, max_pairs, max_registers};
ghost use Rattle.buffers.specs.Over.{over};
ghost use Rattle.refusals.specs.Checks.{first_fault};
ghost use Rattle.propagate.specs.Store.{Lent};
ghost use Rattle.forced_late.specs.Forest.{early_early, source_of};
ghost use Rattle.blocking.specs.Paths.{first_chain, path_in, chain_in, Late, Traced, Clashing};
ghost use Rattle.blocking.specs.Blocking.{why_call_checks, ChainsIn, Ready, WhyAs, WhyAllowed};

use delay_list::DelayList;
use forced_late::Row;
use refusals::{Refusal, Refused, check};
use timing::PER_PAIR;

// A register that can be neither early nor late, and the lengths of the two chains at it.
#[derive(Clone, Copy, Debug, PartialEq, Eq)]
pub struct Blocked {
    pub register: u32,
    pub first: u32,
    pub second: u32,
}

// 3, 2 and 1, for a list.
#[tactic(auto, unfolding(refusals::specs::Checks::or_check, refusals::specs::Checks::fault_after))]
fn call_fault(list: DelayList, period: u32, room: usize, spare: usize) -> Result<(), Refused>
    ensures { result ≡ first_fault (why_call_checks list.entry.registers list.entry.pairs period room spare) }
{
    let need = timing::scratch_places(list.registers, list.pairs);
    check(period == 0, Refusal::Call, 0)?;
    check(period > timing::MAX_PERIOD, Refusal::Call, 0)?;
    check(room < 4 * list.registers, Refusal::Room, 0)?;
    check(spare < need, Refusal::Scratch, 0)
}

// The register that a step from a late register to a late one comes from.
fn source(list: DelayList, step: usize) -> usize
    requires { step / per_pair < list.pairs }
    ensures { result ≡ source_of list.entry.words.now step }
{
    let p = list.pair(step / PER_PAIR);
    if step % PER_PAIR == Row::LateEarly.number() {
        return p.launch as usize;
    }
    p.capture as usize
}

// The steps from register r up to its root, in the places from 2n on. The root is returned.
fn trace(list: DelayList, r: usize, scratch: &mut [u32]) -> usize
    requires { Late list.words.now list.registers list.pairs scratch.old r }
    ensures { Traced list.entry.words.now list.entry.registers r scratch.old scratch.new result }
{
    let n = list.registers;
    let height = (scratch[r] as usize) - 1;
    let mut at = r;
    for i in 0..height {
        let step = scratch[n + at];
        scratch[2 * n + i] = step;
        at = source(list, step as usize);
    }
    at
}

// One step, in place `at`.
fn put_step(answer: &mut [u32], at: usize, step: usize)
    requires { (at < length answer.old) × (step < per_pair * max_pairs) }
    ensures { answer.new ≡ over (take at answer.old ++ (step ∷ [])) answer.old }
{
    answer[at] = step as u32;
}

// The chain of a root from early to late, by the step that made it one. Its length is returned.
fn put_first(list: DelayList, step: usize, answer: &mut [u32]) -> u32
    requires { (step / per_pair < list.pairs) × (step % per_pair ≡ early_early) × (2 ≤ length answer.old) }
    ensures size { result ≡ length (first_chain list.entry.words.now step) }
    ensures stored { answer.new ≡ over (first_chain list.entry.words.now step) answer.old }
{
    let p = list.pair(step / PER_PAIR);
    put_step(answer, 0, step);
    if p.launch == p.capture {
        return 1;
    }
    put_step(answer, 1, step + Row::LateEarly.number());
    2
}

// The steps of a path, in their order or the last of them first.
fn put_path(path: &[u32], down: bool, at: usize, answer: &mut [u32])
    requires { at + length path.now ≤ length answer.old }
    ensures { answer.new ≡ over (take at answer.old ++ path_in down path.now) answer.old }
{
    for i in 0..path.len() {
        answer[at + i] = path[delay_list::place(path.len(), i, down)];
    }
}

// The chain of root b from late to early, from place `at` on: along a path down to the launch of pair k, and back by that pair. Its
// length is returned.
fn put_second(
    list: DelayList,
    k: usize,
    b: usize,
    path: &[u32],
    at: usize,
    answer: &mut [u32],
) -> u32
    requires { (k < list.pairs) × (length path.now ≤ max_registers) × (at + 2 * length path.now + 2 ≤ length answer.old) }
    ensures size { result ≡ length (chain_in list.entry.words.now k b path.now) }
    ensures stored { answer.new ≡ over (take at answer.old ++ chain_in list.entry.words.now k b path.now) answer.old }
{
    let p = list.pair(k);
    let count = path.len();
    put_path(path, true, at, answer);
    put_step(answer, at + count, Row::LateLate.step(k));
    if p.capture as usize == b {
        return (count + 1) as u32;
    }
    put_step(answer, at + count + 1, Row::LateEarly.step(k));
    put_path(path, false, at + count + 2, answer);
    (2 * count + 2) as u32
}

// The two chains that pair k gives, whose launch is late and has to be early.
fn put_chains(list: DelayList, k: usize, answer: &mut [u32], scratch: &mut [u32]) -> Blocked
    requires { Clashing list.words.now list.registers list.pairs k answer.old scratch.old }
    ensures { ChainsIn list.entry.words.now list.entry.registers k answer.old answer.new scratch.old scratch.new result }
{
    let n = list.registers;
    let p = list.pair(k);
    let count = (scratch[p.launch as usize] as usize) - 1;
    let b = trace(list, p.launch as usize, scratch);
    let step = scratch[n + b] as usize;
    let first = put_first(list, step, answer);
    let second = put_second(
        list,
        k,
        b,
        &scratch[2 * n..2 * n + count],
        first as usize,
        answer,
    );
    Blocked {
        register: b as u32,
        first,
        second,
    }
}

// The broken choices at the offset common less period, or 0, and the registers that they force late.
fn prepare(list: DelayList, period: u32, scratch: &mut [u32])
    requires { Lent list.words.now list.registers list.pairs scratch.old }
    ensures { Ready list.entry.words.now period list.entry.registers scratch.old scratch.new }
{
    let common = free_climb::common(list);
    let offset = timing::less(common, period);
    propagate::prepare(list, period, offset, scratch);
    forced_late::force_late(list, scratch);
}

// What blocks the period of an accepted list; the scratch is left zero.
fn show(list: DelayList, period: u32, answer: &mut [u32], scratch: &mut [u32]) -> Option<Blocked>
    requires { WhyAllowed list.words.now period list.registers list.pairs answer.old scratch.old }
    ensures { WhyAs list.entry.words.now period answer.old answer.new scratch.old scratch.new (Ok result) }
{
    let end = timing::scratch_places(list.registers, list.pairs);
    prepare(list, period, scratch);
    let Some(k) = forced_late::clash(list, scratch) else {
        buffers::clear(scratch, end);
        return None;
    };
    let blocked = put_chains(list, k, answer, scratch);
    buffers::clear(scratch, end);
    Some(blocked)
}

// Whether some split works at the period with any offset: nothing is returned, and the answer buffer kept. If none does, a register that can be neither
// early nor late: the steps of the chain that leads it from early to late fill the first places of the answer buffer, those of the chain
// from late back to early the next. Either way 6n + 4m places of scratch are left zero; a refusal changes nothing.
pub fn why_not(
    words: &[u32],
    period: u32,
    answer: &mut [u32],
    scratch: &mut [u32],
) -> Result<Option<Blocked>, Refused>
    ensures { WhyAs words.now period answer.old answer.new scratch.old scratch.new result }
{
    let list = DelayList::accepted(words)?;
    call_fault(list, period, answer.len(), scratch.len())?;
    Ok(show(list, period, answer, scratch))
}
