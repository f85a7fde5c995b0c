// 01's program: each line of the file is a sample.
ghost use Rattle.std.specs.Prelude.{Ok};
ghost use Rattle.answer.specs.Verdict.{answered, judged_told, Judges};
ghost use Rattle.answer.specs.Oven.{output_line, sample_line};

use crate::verdict::Answered;
use command::Command;
use delivery::numbered::Numbered;
use refusal::Refusal;
use word::buffer::{put, put_decimal};
use word::decimal::read_decimal;

// "writes each output as a decimal and a line feed"
fn answer(state: Numbered, output: i32, out: &mut [u8]) -> Answered
    ensures { Judges 0 (answered state (output_line output)) out.old (judged_told state (Ok result)) out.new }
{
    let end = put_decimal(out, 0, output);
    put(out, end, b"\n");
    Answered {
        state,
        len: end + 1,
    }
}

// A whole line, its line feed left out. An accepted sample is answered, a refused one ends the run.
pub(crate) fn sample_line(state: Numbered, line: &[u8], out: &mut [u8]) -> Result<Answered, Refusal>
    ensures { Judges 0 (sample_line state line.now) out.old (judged_told state result) out.new }
{
    let Some(pv) = read_decimal(line) else {
        return Err(Refusal::WrongForm);
    };
    let last = state.memory.number;
    if last == u32::MAX {
        return Err(Refusal::ManySamples);
    }
    let told = state.deliver(last + 1, Command::Sample(pv));
    told.outcome?;
    Ok(answer(told.state, told.output, out))
}
