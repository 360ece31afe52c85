// Words as four bytes each, the lowest first.
ghost use Rattle.std.specs.Prelude.{◌≡◌, ◌+◌, ◌*◌, ◌≤◌, ◌++◌, length, take, drop};
ghost use Rattle.buffers.specs.Over.{over};
ghost use Rattle.words.specs.Bytes.{from_bytes, bytes_of, to_words, to_bytes};

fn from_bytes(a: u8, b: u8, c: u8, d: u8) -> u32
    ensures { result ≡ from_bytes a b c d }
{
    u32::from_le_bytes([a, b, c, d])
}

// The first `count` words of `bytes`, into the first places of `words`; later places are kept.
pub fn to_words(bytes: &[u8], count: usize, words: &mut [u32])
    requires { (4 * count ≤ length bytes.now) × (count ≤ length words.old) }
    ensures { words.new ≡ over (to_words bytes.now count) words.old }
{
    for k in 0..count {
        let at = 4 * k;
        words[k] = from_bytes(bytes[at], bytes[at + 1], bytes[at + 2], bytes[at + 3]);
    }
}

// The bytes of `w`, stored from `at` on.
fn put_word(bytes: &mut [u8], at: usize, w: u32)
    requires { at + 4 ≤ length bytes.old }
    ensures { bytes.new ≡ take at bytes.old ++ (bytes_of w ++ drop (at + 4) bytes.old) }
{
    bytes[at..at + 4].copy_from_slice(&w.to_le_bytes());
}

// The bytes of the first `count` words, into the first places of `bytes`; later places are kept.
pub fn to_bytes(words: &[u32], count: usize, bytes: &mut [u8])
    requires { (count ≤ length words.now) × (4 * count ≤ length bytes.old) }
    ensures { bytes.new ≡ over (to_bytes words.now count) bytes.old }
{
    for k in 0..count {
        put_word(bytes, 4 * k, words[k]);
    }
}
