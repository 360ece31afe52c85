// Job 1, reading: a delay list into plain numbers, four for each pair and then two for each register.
// The contract cites `list_format`: `specs/Read.antt` for the outcome, `specs/RoundTrip.antt` for the whole promise.
#![tactic(auto)]

ghost use Rattle.std.specs.Prelude.{◌≡◌, [], ◌∷◌, ◌++◌, ◌+◌, ◌*◌, ◌<◌, ◌≤◌, length, take, drop};
ghost use Rattle.buffers.specs.Over.{over};
ghost use Rattle.list_format.specs.Lists.{registers, pair_count, need_words, needs_of, IsAccepted};
ghost use Rattle.list_format.specs.Read.{four_of, numbers_of};
ghost use Rattle.list_format.specs.RoundTrip.{ReadAs};

use delay_list::{Layout, Reader};
use list_format::Counts;
use refusals::{Refusal, Refused, check};
use timing::Pair;

// The four numbers of a pair, stored from `at` on.
fn put(answer: &mut [u32], at: usize, p: Pair)
    requires { at + 4 ≤ length answer.old }
    ensures { answer.new ≡ take at answer.old ++ (four_of p ++ drop (at + 4) answer.old) }
{
    answer[at] = p.launch;
    answer[at + 1] = p.capture;
    answer[at + 2] = p.least;
    answer[at + 3] = p.greatest;
}

// The numbers of all pairs of an accepted list, in the first places of the buffer: a reader is asked for pair after pair, until the end.
fn fill(words: &[u32], answer: &mut [u32])
    requires { IsAccepted words.now × (4 * pair_count words.now ≤ length answer.old) }
    ensures { answer.new ≡ over (numbers_of words.now) answer.old }
{
    let mut reader = Reader::new(words, 0);
    while let Some(p) = reader.next() {
        put(answer, 4 * reader.at, p);
        reader = reader.advanced();
    }
}

// Hold and setup of a register, stored from `at` on.
fn put_needs(answer: &mut [u32], at: usize, hold: u32, setup: u32)
    requires { at + 2 ≤ length answer.old }
    ensures { answer.new ≡ take at answer.old ++ ((hold ∷ setup ∷ []) ++ drop (at + 2) answer.old) }
{
    answer[at] = hold;
    answer[at + 1] = setup;
}

// Hold and setup of all registers, from `at` on.
fn fill_needs(words: &[u32], n: u32, at: usize, answer: &mut [u32])
    requires { (n ≡ registers words.now)
        × ((need_words words.now < length words.now) × (at + 2 * n ≤ length answer.old)) }
    ensures { answer.new ≡ over (take at answer.old ++ needs_of words.now) answer.old }
{
    let layout = Layout::of(words);
    for r in 0..n {
        let hold = layout.hold(r);
        let setup = layout.setup(r);
        put_needs(answer, at + 2 * r as usize, hold, setup);
    }
}

// Reads a delay list. The counts of registers and pairs are returned, and the first places of the buffer hold launch, capture, least and
// greatest of each pair, then hold and setup of each register; later places keep their contents. A refusal changes nothing.
pub fn read(words: &[u32], answer: &mut [u32]) -> Result<Counts, Refused>
    ensures { ReadAs words.now answer.old answer.new result }
{
    let counts = delay_list::verdict(words)?;
    let four = 4 * counts.pairs as usize;
    check(
        answer.len() < four + 2 * counts.registers as usize,
        Refusal::Room,
        0,
    )?;
    fill(words, answer);
    fill_needs(words, counts.registers, four, answer);
    Ok(counts)
}
