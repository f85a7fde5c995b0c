// What is carried from one piece of a file to the next, and what both programs do with a line.
ghost use Rattle.std.specs.Prelude.{◌≡◌, ◌+◌, ◌≤◌, length};
ghost use Rattle.std.proofs.lemmas.List.Edits.{sets};
ghost use Rattle.refusal.specs.Refusal.{code_for};
ghost use Rattle.stream.specs.Run.{line_room, refused_line, refusing, following, over_of, next_of, Tells};

use crate::part::Part;
use answer::judge::Lines;
use delivery::numbered::Numbered;
use refusal::Refusal;
use word::buffer::{put, put_decimal};

// A run that is under way: what has come of the line under way, and its number in the file. Once ended, nothing more is written; it
// is a flag, since a caller reads the line and the state of a run that has ended too.
#[derive(Clone, Copy)]
pub struct Run {
    pub ended: bool,
    pub lines: Lines,
    pub part: Part,
    pub line: u32,
    pub state: Numbered,
}

impl Run {
    // The room for what one byte of a file can make a program write.
    pub const ROOM: usize = 128;
}

// What a step leaves, and how many bytes from the lent buffer's first on are to be written: the buffer is the caller's.
#[derive(Clone, Copy)]
pub struct Told {
    pub run: Run,
    pub len: usize,
}

// "it writes `refused`, the code and the line, one space between, and a line feed". The code is a number, as the text has it.
fn put_refused(out: &mut [u8], code: u8, line: u32) -> usize
    ensures value { (result ≡ length (refused_line code line)) × (result ≤ line_room) }
    ensures out_after { out.new ≡ sets out.old 0 (refused_line code line) }
{
    put(out, 0, b"refused ");
    let space = 8 + put_decimal(out, 8, code as u32);
    put(out, space, b" ");
    let end = space + 1 + put_decimal(out, space + 1, line);
    put(out, end, b"\n");
    end + 1
}

// The line after this one. A line past 4,294,967,295 keeps that number.
fn following(line: u32) -> u32
    ensures { result ≡ following line }
{
    line.saturating_add(1)
}

impl Run {
    // Ended, with no line under way.
    pub(crate) fn over(mut self) -> Run
        ensures { result ≡ over_of self }
    {
        self.ended = true;
        self.part = Part::none();
        self
    }

    // The next line begins.
    pub(crate) fn next(mut self, state: Numbered) -> Run
        ensures { result ≡ next_of self state }
    {
        self.part = Part::none();
        self.line = following(self.line);
        self.state = state;
        self
    }

    // "The first refusal ends it".
    pub(crate) fn refuse(self, refusal: Refusal, out: &mut [u8]) -> Told
        ensures { Tells line_room (refusing self (code_for refusal)) out.old result out.new }
    {
        let len = put_refused(out, u8::from(refusal), self.line);
        Told {
            run: self.over(),
            len,
        }
    }
}
