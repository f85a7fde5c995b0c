// Signed whole numbers: what other crates share of them. What their definitions and proofs share is in specs/ and proofs/.
#![tactic(auto)]

ghost use Rattle.std.specs.Prelude.{◌≡◌};
ghost use Rattle.whole.specs.Numbers.{plus, size};

// A number as one without a sign, 0 where it is negative.
pub fn plus(x: i32) -> usize
    ensures { result ≡ plus x }
{
    usize::try_from(x).unwrap_or(0)
}

// How large x is, its sign left aside. A size fits 64 bits, and there is no From between u64 and usize.
pub fn size(x: i64) -> usize
    ensures { result ≡ size x }
{
    x.unsigned_abs() as usize
}
