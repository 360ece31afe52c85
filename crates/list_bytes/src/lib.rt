// The words of a delay list that came as bytes, four to a word.
// The contract cites `specs/ListBytes.antt`.
#![tactic(auto)]

ghost use Rattle.std.specs.Prelude.{◌≡◌, get_or};
ghost use Rattle.list_bytes.specs.ListBytes.{LoadedAs, blank_byte, text_byte, looks_like_text};

use timing::{MAX_PAIRS, MAX_REGISTERS};

// The words and the bytes of the longest list.
pub const MAX_WORDS: usize = 3 * MAX_PAIRS + 2 + MAX_REGISTERS as usize;

pub const MAX_BYTES: usize = 4 * MAX_WORDS;

// The words of `bytes`, in the first places of `words`; later places keep their contents. Their count is returned: 0 if the bytes
// are too many or not four to a word. Lent, and not counted, they would be plainer to callers; but what is lent out of a `&mut` leaves no
// word for what the buffer holds afterwards.
pub fn load(bytes: &[u8], words: &mut [u32; MAX_WORDS]) -> usize
    ensures { LoadedAs bytes.now words.old words.new result }
{
    let size = bytes.len();
    if size > MAX_BYTES {
        return 0;
    }
    if size % 4 != 0 {
        return 0;
    }
    let count = size / 4;
    words::to_words(bytes, count, words);
    count
}

// Whether it is a tab, a newline, a carriage return, a space, a comma or the sign of a comment.
#[tactic(auto, unfolding(crate::specs::ListBytes::blank_byte))]
fn is_blank(byte: u8) -> bool
    ensures { result ≡ blank_byte byte }
{
    matches!(byte, b'\t' | b'\n' | b'\r' | b' ' | b'#' | b',')
}

// Whether a text can begin with the byte.
fn is_text_byte(byte: u8) -> bool
    ensures { result ≡ text_byte byte }
{
    if byte < b'0' {
        return is_blank(byte);
    }
    byte <= b'9' || byte == 0xEF
}

// Byte i, or 0 where there is none.
fn byte_at(bytes: &[u8], i: usize) -> u8
    ensures { result ≡ get_or bytes.now i 0 }
{
    if i < bytes.len() { bytes[i] } else { 0 }
}

// Whether bytes that are refused as a list look like the text of one.
pub fn looks_like_text(bytes: &[u8]) -> bool
    ensures { result ≡ looks_like_text bytes.now }
{
    if !is_text_byte(byte_at(bytes, 0)) {
        return false;
    }
    bytes.len() < 8 || byte_at(bytes, 6) >= 9 && byte_at(bytes, 7) < 128
}
