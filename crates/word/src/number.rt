// The decimals of a journal: "the settings' decimal form but up to 10 digits, within 32 bits".
ghost use Rattle.std.specs.Prelude.{◌≡◌};
ghost use Rattle.word.specs.Number.{number_in, signed_in};

use crate::decimal::{signed_of, size_of};

// "Up to 10 digits".
const DIGITS: usize = 10;

// The number without a sign that a word is.
pub fn read_unsigned(word: &[u8]) -> Option<u32>
    ensures { result ≡ number_in word.now }
{
    u32::try_from(size_of(word, DIGITS)?).ok()
}

// The number with a sign.
pub fn read_signed(word: &[u8]) -> Option<i32>
    ensures { result ≡ signed_in word.now }
{
    signed_of(word, DIGITS)
}
