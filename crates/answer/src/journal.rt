// The journal's program: each line of the file is a delivery, and is answered by itself grown by the answer.
ghost use Rattle.std.specs.Prelude.{◌≡◌, ◌+◌, ◌^◌, ◌<◌, ◌≤◌, length, Ok};
ghost use Rattle.std.proofs.lemmas.List.Edits.{sets};
ghost use Rattle.delivery.specs.Numbered.{delivered_told};
ghost use Rattle.answer.specs.Verdict.{answer_room, judged_told, Judges};
ghost use Rattle.answer.specs.Journal.{answer_text, journal_answer, journal_line};

use crate::verdict::Answered;
use delivery::numbered::{Delivered, Numbered};
use delivery_line::parse;
use refusal::Refusal;
use word::buffer::{put, put_decimal};

// ` code=C output=U last=L` and a line feed, from place at on; the place after it. The text has the code as a number.
fn put_answer(out: &mut [u8], at: usize, code: u8, output: i32, last: u32) -> usize
    requires { at < 2 ^ 63 }
    ensures value { (result ≡ at + length (answer_text code output last)) × (result ≤ at + answer_room) }
    ensures out_after { out.new ≡ sets out.old at (answer_text code output last) }
{
    put(out, at, b" code=");
    let code_end = at + 6 + put_decimal(out, at + 6, code as u32);
    put(out, code_end, b" output=");
    let output_end = code_end + 8 + put_decimal(out, code_end + 8, output);
    put(out, output_end, b" last=");
    let last_end = output_end + 6 + put_decimal(out, output_end + 6, last);
    put(out, last_end, b"\n");
    last_end + 1
}

// The line itself, grown by the answer.
fn reply(line: &[u8], told: Delivered, out: &mut [u8]) -> Answered
    ensures { Judges (length line.now) (journal_answer line.now (delivered_told told)) out.old (judged_told told.state (Ok result)) out.new }
{
    put(out, 0, line);
    let code = refusal::code(told.outcome);
    let len = put_answer(out, line.len(), code, told.output, told.number);
    Answered {
        state: told.state,
        len,
    }
}

// A whole line, its line feed left out.
pub(crate) fn journal_line(
    state: Numbered,
    line: &[u8],
    out: &mut [u8],
) -> Result<Answered, Refusal>
    ensures { Judges (length line.now) (journal_line state line.now) out.old (judged_told state result) out.new }
{
    match parse(line) {
        None => Err(Refusal::WrongForm),
        Some(asked) => {
            let told = state.deliver(asked.number, asked.command);
            Ok(reply(line, told, out))
        }
    }
}
