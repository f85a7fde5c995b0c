// The bytes that have come of a line.
ghost use Rattle.std.specs.Prelude.{◌≡◌, ◌+◌, ◌≤◌, eqb, ltb, length};
ghost use Rattle.stream.specs.Part.{line_most, no_part, held, with_more};

use word::buffer::put;

// The first len of the bytes have come.
#[derive(Clone, Copy)]
pub struct Part {
    pub bytes: [u8; Part::MOST],
    pub len: usize,
}

impl Part {
    // The room for a line of the file, which no well-formed line passes.
    pub const MOST: usize = 80;

    // Nothing has come yet.
    pub(crate) fn none() -> Part
        ensures { result ≡ no_part }
    {
        Part {
            bytes: [0; Part::MOST],
            len: 0,
        }
    }

    pub(crate) fn is_empty(&self) -> bool
        ensures { result ≡ eqb self.now.len 0 }
    {
        self.len == 0
    }

    pub(crate) fn as_slice(&self) -> &[u8]
        ensures { result.now ≡ held self.now }
    {
        &self.bytes[..self.len.min(Part::MOST)]
    }

    // Whether these bytes have no room after it.
    pub(crate) fn lacks_room(&self, more: &[u8]) -> bool
        ensures { result ≡ ltb line_most (self.now.len + length more.now) }
    {
        Part::MOST < self.len || Part::MOST - self.len < more.len()
    }

    // More bytes come.
    pub(crate) fn push(&mut self, more: &[u8])
        requires { self.old.len + length more.now ≤ line_most }
        ensures { self.new ≡ with_more self.old more.now }
    {
        put(&mut self.bytes, self.len, more);
        self.len += more.len();
    }
}
