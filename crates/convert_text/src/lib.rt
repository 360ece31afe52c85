// Converts the bytes of a stored list, whose pairs come in any order and may repeat, into those of one whose pairs ascend.
// The contracts cite `specs/ConvertText.antt`; what converting keeps is said in `converter`.
#![tactic(auto)]

ghost use Rattle.std.specs.Prelude.{◌*◌, ◌≤◌, length};
ghost use Rattle.words.specs.Bytes.{to_bytes};
ghost use Rattle.text_pieces.specs.Pieces.{Put};
ghost use Rattle.list_bytes.specs.ListBytes.{max_bytes};
ghost use Rattle.convert_text.specs.ConvertText.{converted_from, converted_bytes, MadeAs};

use list_bytes::{MAX_BYTES, MAX_WORDS};
use text_pieces::Trouble;

// The bytes of all words.
pub fn put_words(out: &mut [u8], words: &[u32]) -> usize
    requires { 4 * length words.now ≤ length out.old }
    ensures { Put (4 * length words.now) (to_bytes words.now (length words.now))
        out.old 0 out.new result }
{
    let count = words.len();
    words::to_bytes(words, count, out);
    4 * count
}

// The bytes of a stored list, converted; or the line of its refusal.
pub fn put_converted(out: &mut [u8], words: &[u32]) -> Result<usize, Trouble>
    requires { max_bytes ≤ length out.old }
    ensures { MadeAs (converted_from words.now) out.old out.new result }
{
    let mut converted = [0u32; MAX_WORDS];
    match converter::convert(words, &mut converted) {
        Err(refused) => {
            let size = refusal_text::tell_refusal(out, refused);
            Err(Trouble { size })
        }
        Ok(count) => Ok(put_words(out, &converted[..count])),
    }
}

// The same from the bytes of a stored list, in the first places of `out`; later places keep their contents.
pub fn convert_bytes(bytes: &[u8], out: &mut [u8; MAX_BYTES]) -> Result<usize, Trouble>
    ensures { MadeAs (converted_bytes bytes.now) out.old out.new result }
{
    let mut words = [0u32; MAX_WORDS];
    let count = list_bytes::load(bytes, &mut words);
    put_converted(out, &words[..count])
}
