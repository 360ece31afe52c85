// Numbers with sign as words of 64 bits.
ghost use Rattle.std.specs.Prelude.{◌≡◌, unsigned_abs};
ghost use Rattle.words.specs.Signed.{signed_word};

// A number without its sign.
pub fn magnitude(x: i64) -> u64
    ensures { result ≡ unsigned_abs x }
{
    x.unsigned_abs()
}

// A number with its sign, in two's complement.
pub fn signed_word(x: i64) -> u64
    ensures { result ≡ signed_word x }
{
    x.cast_unsigned()
}
