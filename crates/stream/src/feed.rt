// A file in pieces, line by line.
ghost use Rattle.std.specs.Prelude.{◌≡◌, ◌+◌, ◌*◌, ◌≤◌, length};
ghost use Rattle.stream.specs.Part.{line_most};
ghost use Rattle.answer.specs.Judge.{judged_by};
ghost use Rattle.stream.specs.Run.{line_room, word_of, line_step, Tells};
ghost use Rattle.stream.specs.Feed.{grown_of, line_of, passing, fed_of, out_fed, finished_of, out_finished, Counts, ran_told};

use crate::run::{Run, Told};
use answer::judge::judge;
use refusal::Refusal;
use word::end::end_at;

impl Run {
    // What a whole line leads to.
    fn judge(self, line: &[u8], out: &mut [u8]) -> Told
        requires { length line.now ≤ line_most }
        ensures { Tells line_room (line_step self (judged_by self.lines self.state line.now)) out.old result out.new }
    {
        match judge(self.lines, self.state, line, out) {
            Ok(answered) => Told {
                run: self.next(answered.state),
                len: answered.len,
            },
            Err(refusal) => self.refuse(refusal, out),
        }
    }

    // The line under way with more bytes of it.
    fn grown(mut self, more: &[u8]) -> Run
        requires { self.part.len + length more.now ≤ line_most }
        ensures { result ≡ grown_of self more.now }
    {
        self.part.push(more);
        self
    }

    // A line whose last bytes these are. One that lies whole in the piece is judged where it stands; one that began in an
    // earlier piece is joined with what was carried of it.
    fn line(self, more: &[u8], out: &mut [u8]) -> Told
        requires { self.part.len + length more.now ≤ line_most }
        ensures { Tells line_room (line_step self (judged_by self.lines self.state (word_of (grown_of self more.now)))) out.old result out.new }
    {
        if self.part.is_empty() {
            return self.judge(more, out);
        }
        let mut joined = self.part;
        joined.push(more);
        self.judge(joined.as_slice(), out)
    }

    // The next bytes of a line, up to its line feed where that has come: `fed`, as the definition has it.
    fn take(self, more: &[u8], fed: bool, out: &mut [u8]) -> Told
        ensures { Tells line_room (line_of self more.now fed) out.old result out.new }
    {
        if self.ended {
            return Told { run: self, len: 0 };
        }
        if self.part.lacks_room(more) {
            return self.refuse(Refusal::WrongForm, out);
        }
        if fed {
            return self.line(more, out);
        }
        Told {
            run: self.grown(more),
            len: 0,
        }
    }

    // A piece of the file, line by line: no index runs over it, and the line feed's place is where each turn cuts.
    fn pass(self, piece: &[u8], out: &mut [u8]) -> Told
        requires { length piece.now * line_room ≤ length out.old }
        ensures { Tells (length piece.now * line_room) (passing self piece.now) out.old result out.new }
    {
        let mut run = self;
        let mut at: usize = 0;
        let mut rest = piece;
        while 0 < rest.len() {
            let end = end_at(rest, b'\n');
            let told = run.take(&rest[..end], end < rest.len(), &mut out[at..]);
            run = told.run;
            at += told.len;
            if end == rest.len() {
                return Told { run, len: at };
            }
            rest = &rest[end + 1..];
        }
        Told { run, len: at }
    }

    // The next piece of the file.
    pub fn feed(self, piece: &[u8], out: &mut [u8]) -> Result<Told, Run>
        ensures value { ran_told result ≡ fed_of self piece.now (length out.old) }
        ensures out_after { out.new ≡ out_fed self piece.now out.old }
        ensures counts { Counts (ran_told result).len out.new }
    {
        if out.len() / Run::ROOM < piece.len() {
            return Err(self);
        }
        Ok(self.pass(piece, out))
    }

    // The end of the file: "a last one without its line feed, is 14".
    pub fn finish(self, out: &mut [u8]) -> Result<Told, Run>
        ensures value { ran_told result ≡ finished_of self (length out.old) }
        ensures out_after { out.new ≡ out_finished self out.old }
        ensures counts { Counts (ran_told result).len out.new }
    {
        if out.len() < Run::ROOM {
            return Err(self);
        }
        if self.ended | self.part.is_empty() {
            return Ok(Told { run: self, len: 0 });
        }
        Ok(self.refuse(Refusal::WrongForm, out))
    }
}
