// The settings' reader.
ghost use Rattle.std.specs.Prelude.{◌≡◌, ◌≤◌};
ghost use Rattle.settings.specs.Table.{heads, lines, place_of};
ghost use Rattle.word.specs.End.{end_at, feed};
ghost use Rattle.text.specs.Reader.{value_in, line_told, line_read, read_told, read_end, after_lines, heads_in, sets_in, reading_told, read_text};

use refusal::Refusal;
use settings::Settings;
use settings::table::Row;
use values::{filled, settings_of, unread};
use word::decimal::read_decimal;
use word::end::end_at;

// What a text is read as. The line is that of codes 14 and 15; beside any refusal stand blank settings.
#[derive(Clone, Copy)]
pub struct Reading {
    pub outcome: Result<(), Refusal>,
    pub line: usize,
    pub settings: Settings,
}

// Why a text is refused, and the line for which it is, or 0.
#[derive(Clone, Copy)]
struct Fault {
    refusal: Refusal,
    line: usize,
}

// "A text that ends after 26 lines is still read": the gain sets whose lines it has.
const SHORT_SETS: usize = 4;

// The value of a line, its line feed left out.
fn value_in(row: Row, line: &[u8]) -> Option<i32>
    ensures { result ≡ value_in row line.now }
{
    let word = line.strip_prefix(row.key())?;
    read_decimal(word)
}

// The value of the first line of what is left of a text; end is the place of its line feed. "14 before 15 in each."
fn read_line(row: Row, rest: &[u8], end: usize) -> Result<i32, Refusal>
    requires { end ≡ end_at feed rest.now }
    ensures { line_told result ≡ line_read row rest.now }
{
    let value = value_in(row, &rest[..end]).ok_or(Refusal::WrongForm)?;
    let ended = end < rest.len();
    let held = row.holds(value);
    if !ended {
        return Err(Refusal::WrongForm);
    }
    if !held {
        return Err(Refusal::ValueOutside);
    }
    Ok(value)
}

// "Then 17, then 16."
fn read_end(settings: Settings, left: usize) -> Result<Settings, Fault>
    ensures { read_told result ≡ read_end settings left }
{
    let ordered = settings.is_ordered();
    if 0 < left {
        return Err(Fault {
            refusal: Refusal::BytesLeft,
            line: 0,
        });
    }
    if !ordered {
        return Err(Fault {
            refusal: Refusal::Limits,
            line: 0,
        });
    }
    Ok(settings)
}

// What stands after the first n lines of a text.
fn after_lines(text: &[u8], n: usize) -> &[u8]
    ensures { result.now ≡ after_lines n text.now }
{
    let mut rest = text;
    for _line in 0..n {
        let end = end_at(rest, b'\n');
        if rest.len() <= end {
            return &rest[end..];
        }
        rest = &rest[end + 1..];
    }
    rest
}

// The rows before the gain sets whose lines a text is to have: "a text may have neither line, mean alone, or both", by whether the
// line after rate, or else that after mean, begins with kp0.
fn heads_in(text: &[u8]) -> usize
    ensures { result ≡ heads_in text.now }
{
    let after_rate = after_lines(text, Settings::FIRST);
    if after_rate.starts_with(b"kp0") {
        return Settings::FIRST;
    }
    let after_mean = after_lines(text, Settings::FIRST + 1);
    if after_mean.starts_with(b"kp0") {
        return Settings::FIRST + 1;
    }
    Settings::HEAD
}

// The gain sets whose lines a text is to have, with h rows before them: four where it ends after those of set 3 or before, else
// all.
fn sets_in(h: usize, text: &[u8]) -> usize
    requires { h ≤ heads }
    ensures { result ≡ sets_in h text.now }
{
    let left = after_lines(text, h + Settings::KEYS * SHORT_SETS);
    if 0 < left.len() {
        return Settings::SETS;
    }
    SHORT_SETS
}

// The place of line i among all rows, in a text with h rows before the gain sets; lines and rows are counted from 0.
fn place(h: usize, i: usize) -> usize
    requires { (h ≤ heads) × (i ≤ lines) }
    ensures { result ≡ place_of h i }
{
    if i < h {
        return i;
    }
    i + (Settings::HEAD - h)
}

// The settings of a text. "Lines count from 1 and are tested in order."
fn read(text: &[u8]) -> Result<Settings, Fault>
    ensures { read_told result ≡ read_text text.now }
{
    let h = heads_in(text);
    let sets = sets_in(h, text);
    let mut values = unread();
    let mut rest = text;
    for i in 0..h + Settings::KEYS * sets {
        let end = end_at(rest, b'\n');
        let at = place(h, i);
        let line = i + 1;
        let value = read_line(Row::at(at), rest, end).map_err(|refusal| Fault { refusal, line })?;
        values[at] = value;
        rest = &rest[end + 1..];
    }
    read_end(filled(settings_of(values), sets), rest.len())
}

// Reads a settings text.
pub fn read_settings(text: &[u8]) -> Reading
    ensures { reading_told result ≡ read_text text.now }
{
    match read(text) {
        Ok(settings) => Reading {
            outcome: Ok(()),
            line: 0,
            settings,
        },
        Err(fault) => Reading {
            outcome: Err(fault.refusal),
            line: fault.line,
            settings: Settings::blank(),
        },
    }
}
