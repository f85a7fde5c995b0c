// The settings' writer: the text that settings have, specs/Lines.antt, and what comes of writing it, specs/Writer.antt.
#![tactic(auto)]

ghost use Rattle.std.specs.Prelude.{◌≡◌, ◌+◌, ◌≤◌, length};
ghost use Rattle.std.proofs.lemmas.List.Edits.{sets};
ghost use Rattle.writer.specs.Lines.{line_of, text_of};
ghost use Rattle.writer.specs.Writer.{written_told, written_of, buffer_after};

use refusal::Refusal;
use settings::Settings;
use settings::table::Row;
use values::value;
use word::buffer::{put, put_decimal};

// "86 lines, 1,044 bytes at most", and the longest lines of mean and jump 9 and 13 more.
const LONGEST: usize = 1066;

// Puts a line from place at on, and answers the place after it.
fn put_line(buffer: &mut [u8], at: usize, row: Row, x: i32) -> usize
    requires { at ≤ 65536 }
    ensures value { result ≡ at + length (line_of row x) }
    ensures buffer_after { buffer.new ≡ sets buffer.old at (line_of row x) }
{
    let key = row.key();
    put(buffer, at, key);
    let start = at + key.len();
    let end = start + put_decimal(buffer, start, x);
    put(buffer, end, b"\n");
    end + 1
}

// Puts the settings' text from the buffer's first byte on, and answers its length.
fn put_lines(settings: Settings, buffer: &mut [u8]) -> usize
    ensures value { result ≡ length (text_of settings) }
    ensures buffer_after { buffer.new ≡ sets buffer.old 0 (text_of settings) }
{
    let mut at = 0;
    for i in 0..Settings::LINES {
        at = put_line(buffer, at, Row::at(i), value(settings, i));
    }
    at
}

// Writes the settings' text from the buffer's first byte on, and answers its length; a refusal leaves every byte.
pub fn write_settings(settings: Settings, buffer: &mut [u8]) -> Result<usize, Refusal>
    ensures value { written_told result ≡ written_of settings (length buffer.old) }
    ensures buffer_after { buffer.new ≡ buffer_after settings buffer.old }
{
    settings.check()?;
    let mut space = [0u8; LONGEST];
    let len = put_lines(settings, &mut space);
    if buffer.len() < len {
        return Err(Refusal::ShortBuffer);
    }
    put(buffer, 0, &space[..len]);
    Ok(len)
}
