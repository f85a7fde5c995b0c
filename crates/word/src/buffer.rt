// Bytes and decimals put into a lent buffer. What does not fit is passed over, and every other byte stays.
ghost use Rattle.std.specs.Prelude.{◌≡◌, length};
ghost use Rattle.std.proofs.lemmas.List.Edits.{sets};

use crate::decimal::{Decimal, Shown};

// Puts bytes from place at on, as far as the buffer goes. The place stands beside the buffer, since one equation says it of any place.
pub fn put(buffer: &mut [u8], at: usize, bytes: &[u8])
    ensures { buffer.new ≡ sets buffer.old at bytes.now }
{
    if buffer.len() <= at {
        return;
    }
    let end = at + bytes.len().min(buffer.len() - at);
    buffer[at..end].copy_from_slice(&bytes[..end - at]);
}

// Puts the decimal of a number from place at on, and answers how many bytes it has.
pub fn put_decimal<N: Decimal>(buffer: &mut [u8], at: usize, number: N) -> usize
    ensures value { result ≡ length (N.text number) }
    ensures buffer_after { buffer.new ≡ sets buffer.old at (N.text number) }
{
    let Shown { bytes, from } = number.shown();
    put(buffer, at, &bytes[from..]);
    Shown::ROOM - from
}
