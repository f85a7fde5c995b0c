// One decimal, as the settings and the sample file have it: "an optional minus and 1 to 7 digits, no leading zero except
// the number 0 itself, no minus zero".
ghost use Rattle.std.specs.Prelude.{◌≡◌, cond, ◌<◌, ◌≤◌, ℕ, List, length, pos, neg_ℤ, Some, None};
ghost use Rattle.word.specs.Decimal.{long_digits, is_size, size_of, lowest, signed_of, decimal_of, shown, decimal, padded, decimal_room};

// "1 to 7 digits".
const DIGITS: usize = 7;

// The lowest number of 32 bits, its sign left aside.
const LOWEST: u64 = 2_147_483_648;

// What 1 to so many digits make, "no leading zero except the number 0 itself", in one pass. Their count is tested before it:
// a word of any length is answered, and the number never leaves its type.
pub(crate) fn size_of(word: &[u8], most: usize) -> Option<u64>
    requires { most ≤ long_digits }
    ensures { result ≡ cond (is_size most word.now) (Some (size_of word.now)) None }
{
    let length = word.len();
    if word.is_empty() {
        return None;
    }
    if most < length {
        return None;
    }
    let leading_zero = (word[0] == b'0') & (1 < length);
    if leading_zero {
        return None;
    }
    let mut n: u64 = 0;
    for byte in word {
        if !byte.is_ascii_digit() {
            return None;
        }
        n = n * 10 + u64::from(*byte - b'0');
    }
    Some(n)
}

// The number that so many below zero is; both casts fit.
fn negated(n: u64) -> i32
    requires { (0 < n) × (n ≤ lowest) }
    ensures { result ≡ neg_ℤ (pos n) }
{
    -(n as i64) as i32
}

// A decimal of at most so many digits, within 32 bits. They are an argument of this one reader, and no const parameter of a public
// one, which each caller would owe to be at most ten.
pub(crate) fn signed_of(word: &[u8], most: usize) -> Option<i32>
    requires { most ≤ long_digits }
    ensures { result ≡ signed_of most word.now }
{
    let Some(digits) = word.strip_prefix(b"-") else {
        return i32::try_from(size_of(word, most)?).ok();
    };
    let n = size_of(digits, most)?;
    if n == 0 {
        return None;
    }
    if LOWEST < n {
        return None;
    }
    Some(negated(n))
}

// The number that a word is, if it is a decimal; a line feed would be no part of one.
pub fn read_decimal(word: &[u8]) -> Option<i32>
    ensures { result ≡ decimal_of word.now }
{
    signed_of(word, DIGITS)
}

// A text of at most eleven bytes, which stands at their end; from is the place of its first byte.
#[derive(Clone, Copy)]
pub struct Shown {
    pub bytes: [u8; Shown::ROOM],
    pub from: usize,
}

impl Shown {
    // The most bytes of a number of 32 bits: a minus and ten digits.
    pub const ROOM: usize = 11;

    const LAST: usize = Shown::ROOM - 1;
}

// A number that has a decimal.
pub trait Decimal {
    // What stands for it in a text.
    ghost text: { Self → List ℕ };

    fn shown(self) -> Shown
        ensures value { result ≡ padded (text self) }
        ensures room { length (text self) ≤ decimal_room };
}

impl Decimal for u32 {
    ghost text = { shown };

    fn shown(self) -> Shown {
        let mut bytes = [0u8; Shown::ROOM];
        let mut from = Shown::LAST;
        bytes[from] = b'0' + (self % 10) as u8;
        let mut left = self / 10;
        // It divides, and counts nothing.
        while 0 < left {
            from -= 1;
            bytes[from] = b'0' + (left % 10) as u8;
            left /= 10;
        }
        Shown { bytes, from }
    }
}

impl Decimal for i32 {
    ghost text = { decimal };

    fn shown(self) -> Shown {
        let mut text = self.unsigned_abs().shown();
        if self < 0 {
            text.from -= 1;
            text.bytes[text.from] = b'-';
        }
        text
    }
}
