// Pools the bytes of two lists of one chip into those of one list.
// The contracts cite `specs/PoolText.antt`; what the pooled list stands for is said in `pooling`.
#![tactic(auto)]

ghost use Rattle.std.specs.Prelude.{◌≡◌, ◌≤◌, length};
ghost use Rattle.refusals.specs.Checks.{number_of};
ghost use Rattle.pooling.specs.Pool.{number_of_part};
ghost use Rattle.text_pieces.specs.Pieces.{Put};
ghost use Rattle.list_bytes.specs.ListBytes.{max_bytes, list_of};
ghost use Rattle.refusal_text.specs.RefusalText.{words_width, line_width};
ghost use Rattle.convert_text.specs.ConvertText.{MadeAs};
ghost use Rattle.pool_text.specs.PoolText.{pool_meaning, refusal_line_of_neither, refusal_line_of_one, refusal_line_of, pooled_from, pooled_bytes};

use list_bytes::{MAX_BYTES, MAX_WORDS};
use pooling::PoolRefused;
use text_pieces::{Trouble, put_bytes, put_named, put_refused};

// What a refusal of pooling means; any other number is of one of the lists, or of the call.
#[tactic(auto, unfolding(refusal_text::specs::RefusalText::words_for, crate::specs::PoolText::pool_meaning))]
fn pool_words(number: u32) -> &'static [u8]
    ensures is { result.now ≡ pool_meaning number }
    ensures short { length result.now ≤ words_width }
{
    match number {
        21 => b" the lists have other counts of registers or other needs\n",
        22 => b" the pooled list has more than 2048 pairs\n",
        _ => refusal_text::number_words(number),
    }
}

// The line of a refusal of neither list.
fn put_refusal_of_neither(text: &mut [u8], number: u32, place: usize) -> usize
    requires { line_width ≤ length text.old }
    ensures { Put line_width (refusal_line_of_neither number place) text.old 0 text.new result }
{
    let a = put_refused(text, number, place, b':');
    put_bytes(text, a, pool_words(number))
}

// The line of a refusal of one of the two, with the list.
fn put_refusal_of_one(text: &mut [u8], list: u32, number: u32, place: usize) -> usize
    requires { line_width ≤ length text.old }
    ensures { Put line_width (refusal_line_of_one list number place) text.old 0 text.new result }
{
    let a = put_refused(text, number, place, b' ');
    let b = put_named(text, a, b"(list ", list as u64, b')');
    let c = put_bytes(text, b, b":");
    put_bytes(text, c, pool_words(number))
}

// The line of a refusal of a call with two lists, with the list, 1 or 2; 0: it is of neither.
pub fn put_refusal_of(text: &mut [u8], list: u32, number: u32, place: usize) -> usize
    requires { line_width ≤ length text.old }
    ensures { Put line_width (refusal_line_of list number place) text.old 0 text.new result }
{
    if list == 0 {
        return put_refusal_of_neither(text, number, place);
    }
    put_refusal_of_one(text, list, number, place)
}

// The same, of a refusal as pooling tells it.
pub fn tell_refusal_of(text: &mut [u8], why: PoolRefused) -> usize
    requires { line_width ≤ length text.old }
    ensures { Put line_width (refusal_line_of (number_of_part why.«of») (number_of why.refused.refusal) why.refused.place)
        text.old 0 text.new result }
{
    put_refusal_of(
        text,
        why.of.number(),
        why.refused.refusal.number(),
        why.refused.place,
    )
}

// The bytes of the pooled list; or the line of a refusal.
fn put_pooled<'a>(out: &mut [u8], first: &'a [u32], second: &'a [u32]) -> Result<usize, Trouble>
    requires { max_bytes ≤ length out.old }
    ensures { MadeAs (pooled_from first.now second.now) out.old out.new result }
{
    let mut pooled = [0u32; MAX_WORDS];
    match pooling::pool(first, second, &mut pooled) {
        Err(why) => {
            let size = tell_refusal_of(out, why);
            Err(Trouble { size })
        }
        Ok(count) => Ok(convert_text::put_words(out, &pooled[..count])),
    }
}

// The same with the second list as bytes.
fn pool_with(first: &[u32], second: &[u8], out: &mut [u8]) -> Result<usize, Trouble>
    requires { max_bytes ≤ length out.old }
    ensures { MadeAs (pooled_from first.now (list_of second.now)) out.old out.new result }
{
    let mut words = [0u32; MAX_WORDS];
    let count = list_bytes::load(second, &mut words);
    put_pooled(out, first, &words[..count])
}

// The same with both as bytes, in the first places of `out`; later places keep their contents.
pub fn pool_bytes(first: &[u8], second: &[u8], out: &mut [u8; MAX_BYTES]) -> Result<usize, Trouble>
    ensures { MadeAs (pooled_bytes first.now second.now) out.old out.new result }
{
    let mut words = [0u32; MAX_WORDS];
    let count = list_bytes::load(first, &mut words);
    pool_with(&words[..count], second, out)
}
