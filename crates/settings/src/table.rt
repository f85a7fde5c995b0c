// The one table of the settings' keys and ranges, and whether settings lie within it.
ghost use Rattle.std.specs.Prelude.{◌≡◌, ◌+◌, ◌<◌, ◌≤◌, get_or, length};
ghost use Rattle.settings.specs.Table.{longest_key, row_of, row_at, head_rows, gain_rows, table, sets, heads, keys, numbered, rows, no_row, key_of, in_row};
ghost use Rattle.settings.specs.Settings.{gain_values, head_values, all_in, held_from, in_table};

use crate::{Gains, Settings};
use word::buffer::{put, put_decimal};

// A settings key, how many bytes it has, and the least and the most of the value.
#[derive(Clone, Copy)]
pub struct Row {
    pub key: [u8; Row::LONGEST],
    pub len: usize,
    pub least: i32,
    pub most: i32,
}

// "The ranges of the settings are one constant table of rows, which reader, writer and maker all consult": a key, and the least and
// the most of its value. The first have their `=`. The last five stand in each gain set: its number and the `=` are put after
// their letters. In a constant nothing can be called, so WINDOW is cast.
const KINDS: [(&[u8], i32, i32); Settings::HEAD + Settings::KEYS] = [
    (b"action=", 0, 1),
    (b"lo=", -Settings::REACH, Settings::REACH),
    (b"hi=", -Settings::REACH, Settings::REACH),
    (b"out=", -Settings::REACH, Settings::REACH),
    (b"sp=", -Settings::REACH, Settings::REACH),
    (b"rate=", 1, Settings::FASTEST),
    (b"mean=", 1, Settings::WINDOW as i32),
    (b"jump=", 1, Settings::FARTHEST),
    (b"kp", 0, Settings::GAIN),
    (b"ki", 0, Settings::GAIN),
    (b"kd", 0, Settings::GAIN),
    (b"alpha", 1, Settings::SHARE),
    (b"kt", 0, Settings::SHARE),
];

impl Row {
    // The most bytes of a key with its `=`.
    pub const LONGEST: usize = 8;

    // The row of a key and its range.
    fn of(kind: (&[u8], i32, i32)) -> Row
        ensures { result ≡ row_of kind.entry }
    {
        let (letters, least, most) = kind;
        let mut key = [0; Row::LONGEST];
        put(&mut key, 0, letters);
        Row {
            key,
            len: letters.len(),
            least,
            most,
        }
    }

    // Row j of a table, any table: its contract is of the list.
    fn nth(kinds: &[(&[u8], i32, i32)], j: usize) -> Row
        requires { j < length kinds.now }
        ensures { result ≡ row_at kinds.now j }
    {
        Row::of(kinds[j])
    }

    // Row j of the constant table.
    fn kind(j: usize) -> Row
        requires { j < heads + keys }
        ensures { result ≡ get_or table j no_row }
    {
        Row::nth(&KINDS, j)
    }

    // The row in gain set k.
    fn numbered(self, k: usize) -> Row
        requires { (self.len ≤ longest_key) × (k < sets) }
        ensures { result ≡ numbered self k }
    {
        let mut key = self.key;
        let n = self.len;
        let end = n + put_decimal(&mut key, n, k as u32);
        put(&mut key, end, b"=");
        Row {
            key,
            len: end + 1,
            least: self.least,
            most: self.most,
        }
    }

    // The row of line i of a text that leaves none out, counted from 0; past the last, a row without a key.
    pub fn at(i: usize) -> Row
        ensures { result ≡ get_or rows i no_row }
    {
        if i < Settings::HEAD {
            return Row::kind(i);
        }
        if i < Settings::LINES {
            let kind = Row::kind(Settings::HEAD + (i - Settings::HEAD) % Settings::KEYS);
            return kind.numbered((i - Settings::HEAD) / Settings::KEYS);
        }
        Row {
            key: [0; Row::LONGEST],
            len: 0,
            least: 0,
            most: 0,
        }
    }

    // The bytes of the key, with its `=`. A line's `Part` has the like: one type for both would have a public push, which asks for room.
    pub fn key(&self) -> &[u8]
        ensures { result.now ≡ key_of self.now }
    {
        &self.key[..self.len.min(Row::LONGEST)]
    }

    // Whether x lies within the row's range.
    pub fn holds(self, x: i32) -> bool
        ensures { result ≡ in_row self x }
    {
        (self.least..=self.most).contains(&x)
    }

    // Whether each of these values lies within the range of its row, where the first row is row `from` of the constant table. Every
    // value is looked at, so that no test breaks the loop off.
    fn hold(from: usize, values: &[i32]) -> bool
        requires { from + length values.now ≤ heads + keys }
        ensures { result ≡ held_from from values.now }
    {
        let mut ok = true;
        for (i, x) in values.iter().enumerate() {
            ok &= Row::kind(from + i).holds(*x);
        }
        ok
    }
}

impl Gains {
    // The values of the set, in the order of the rows.
    pub fn values(self) -> [i32; Settings::KEYS]
        ensures { result ≡ gain_values self }
    {
        [self.kp, self.ki, self.kd, self.alpha, self.kt]
    }

    // Whether each of them lies within its own range.
    fn in_table(self) -> bool
        ensures { result ≡ all_in gain_rows (gain_values self) }
    {
        Row::hold(Settings::HEAD, &self.values())
    }
}

impl Settings {
    // The values before the gain sets', in the order of the rows.
    pub fn head(self) -> [i32; Settings::HEAD]
        ensures { result ≡ head_values self }
    {
        [
            self.action,
            self.lo,
            self.hi,
            self.out,
            self.sp,
            self.rate,
            self.mean,
            self.jump,
        ]
    }

    // Whether each value lies within its own range.
    pub fn in_table(self) -> bool
        ensures { result ≡ in_table self }
    {
        if !Row::hold(0, &self.head()) {
            return false;
        }
        for set in &self.gains {
            if !set.in_table() {
                return false;
            }
        }
        true
    }
}
