// Whether some split works at a period and an offset, and the first one.
// The contracts cite `specs/Splitting.antt`; what a split is stands in `split_laws`.
#![tactic(auto)]

ghost use Rattle.std.specs.Prelude.{◌≡◌, Ok};
ghost use Rattle.refusals.specs.Checks.{first_fault};
ghost use Rattle.split.specs.Splitting.{split_call_checks, SplitAs, SplitAllowed};

use delay_list::DelayList;
use refusals::{Refusal, Refused, check};

// 3, 2 and 1, for an accepted list.
#[tactic(auto, unfolding(refusals::specs::Checks::or_check, refusals::specs::Checks::fault_after))]
fn call_fault(
    list: DelayList,
    period: u32,
    offset: u32,
    room: usize,
    spare: usize,
) -> Result<(), Refused>
    ensures { result ≡ first_fault (split_call_checks list.entry.registers list.entry.pairs period offset room spare) }
{
    let need = timing::scratch_places(list.registers, list.pairs);
    check(period == 0, Refusal::Call, 0)?;
    check(period > timing::MAX_PERIOD, Refusal::Call, 0)?;
    check(offset > timing::MAX_OFFSET, Refusal::Call, 0)?;
    check(room < list.registers, Refusal::Room, 0)?;
    check(spare < need, Refusal::Scratch, 0)
}

// Whether some split works, for an accepted list. If so the first one is stored; the scratch is left zero.
fn show(list: DelayList, period: u32, offset: u32, answer: &mut [u32], scratch: &mut [u32]) -> bool
    requires { SplitAllowed list.words.now period offset list.registers list.pairs answer.old scratch.old }
    ensures { SplitAs list.entry.words.now period offset answer.old answer.new
        scratch.old scratch.new (Ok result) }
{
    let end = timing::scratch_places(list.registers, list.pairs);
    if !propagate::decide(list, period, offset, scratch) {
        buffers::clear(scratch, end);
        return false;
    }
    propagate::write_split(scratch, list.registers, offset, answer);
    buffers::clear(scratch, end);
    true
}

// Whether some split works. The timings of the first, in register order, early before late, are put in the first n places of the answer
// buffer; where none works that buffer is kept. Either way 6n + 4m places of scratch are left zero; a refusal changes nothing.
pub fn split(
    words: &[u32],
    period: u32,
    offset: u32,
    answer: &mut [u32],
    scratch: &mut [u32],
) -> Result<bool, Refused>
    ensures { SplitAs words.now period offset answer.old answer.new
        scratch.old scratch.new result }
{
    let list = DelayList::accepted(words)?;
    call_fault(list, period, offset, answer.len(), scratch.len())?;
    Ok(show(list, period, offset, answer, scratch))
}
