// What a program makes of a whole line.
ghost use Rattle.std.specs.Prelude.{◌≡◌, ◌+◌, ◌≤◌, length};
ghost use Rattle.std.proofs.lemmas.List.Edits.{sets};
ghost use Rattle.answer.specs.Verdict.{answer_room, judged_of, judged_told};
ghost use Rattle.answer.specs.Judge.{judged_by};

use crate::journal::journal_line;
use crate::oven::sample_line;
use crate::verdict::Answered;
use delivery::numbered::Numbered;
use refusal::Refusal;

// What the lines of a file are.
#[derive(Clone, Copy, Debug, PartialEq, Eq)]
pub enum Lines {
    Samples,
    Deliveries,
}

// A line of the file, its line feed left out. What does not fit the lent buffer is passed over.
pub fn judge(
    lines: Lines,
    state: Numbered,
    line: &[u8],
    out: &mut [u8],
) -> Result<Answered, Refusal>
    ensures value { judged_told state result ≡ judged_of (judged_by lines state line.now) }
    ensures out_after { out.new ≡ sets out.old 0 (judged_by lines state line.now).text }
    ensures len_in_bounds { (judged_told state result).len ≤ length line.now + answer_room }
{
    match lines {
        Lines::Samples => sample_line(state, line, out),
        Lines::Deliveries => journal_line(state, line, out),
    }
}
