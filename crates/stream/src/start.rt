// How a run starts: from a settings text.
ghost use Rattle.std.specs.Prelude.{◌≡◌, ◌+◌, ◌≤◌, length};
ghost use Rattle.settings.specs.Table.{lines as settings_lines};
ghost use Rattle.text.specs.Reader.{reading_told};
ghost use Rattle.stream.specs.Run.{line_room, Tells};
ghost use Rattle.stream.specs.Feed.{Counts, ran_told};
ghost use Rattle.stream.specs.Start.{start_of, first_loop, begun_by, begin_of, out_begun};

use crate::part::Part;
use crate::run::{Run, Told};
use answer::judge::Lines;
use command::Command;
use delivery::numbered::Numbered;
use settings::Settings;
use text::reader::{Reading, read_settings};

// "It makes the loop, delivers automatic as number 1"; a journal has every delivery in its file.
fn first_loop(lines: Lines, settings: Settings) -> Numbered
    ensures { result ≡ first_loop lines settings }
{
    let state = Numbered::make(settings).state;
    match lines {
        Lines::Samples => state.deliver(1, Command::Automatic).state,
        Lines::Deliveries => state,
    }
}

impl Run {
    fn start(lines: Lines, line: u32, state: Numbered) -> Run
        ensures { result ≡ start_of lines line state }
    {
        Run {
            ended: false,
            lines,
            part: Part::none(),
            line,
            state,
        }
    }
}

// The run that a reading of the settings begins; a refusal of them ends it.
fn begun(lines: Lines, read: Reading, out: &mut [u8]) -> Told
    requires { read.line ≤ settings_lines + 1 }
    ensures { Tells line_room (begun_by lines (reading_told read)) out.old result out.new }
{
    match read.outcome {
        Ok(()) => Told {
            run: Run::start(lines, 1, first_loop(lines, read.settings)),
            len: 0,
        },
        Err(refusal) => {
            Run::start(lines, read.line as u32, Numbered::blank()).refuse(refusal, out)
        }
    }
}

// A run from the settings text, over a file of samples or of deliveries; one that has ended where the buffer has no room.
pub fn begin(lines: Lines, settings: &[u8], out: &mut [u8]) -> Result<Told, Run>
    ensures value { ran_told result ≡ begin_of lines settings.now (length out.old) }
    ensures out_after { out.new ≡ out_begun lines settings.now out.old }
    ensures counts { Counts (ran_told result).len out.new }
{
    if out.len() < Run::ROOM {
        return Err(Run::start(lines, 0, Numbered::blank()).over());
    }
    Ok(begun(lines, read_settings(settings), out))
}
