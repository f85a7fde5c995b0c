// The settings' values by the place of their rows, as a text has them. The definitions are those of settings/specs/Settings.antt.
#![tactic(auto)]

ghost use Rattle.std.specs.Prelude.{◌≡◌, ◌+◌, ◌≤◌, pos, get_or};
ghost use Rattle.settings.specs.Table.{heads, keys, sets, lines};
ghost use Rattle.settings.specs.Settings.{gains_from, sets_from, values_of, settings_of, unread, filled};

use settings::{Gains, Settings};
use std::array;

// The value of line i of a text that leaves none out, counted from 0; 0 past the last.
pub fn value(settings: Settings, i: usize) -> i32
    ensures { result ≡ get_or (values_of settings) i (pos 0) }
{
    if i < Settings::HEAD {
        return settings.head()[i];
    }
    if i < Settings::LINES {
        let set = settings.gains[(i - Settings::HEAD) / Settings::KEYS];
        return set.values()[(i - Settings::HEAD) % Settings::KEYS];
    }
    0
}

// The gain set whose values begin at place at.
fn gains_from(values: &[i32; Settings::LINES], at: usize) -> Gains
    requires { at + keys ≤ lines }
    ensures { result ≡ gains_from at values.now }
{
    Gains {
        kp: values[at],
        ki: values[at + 1],
        kd: values[at + 2],
        alpha: values[at + 3],
        kt: values[at + 4],
    }
}

// The gain sets whose values, after those that stand before them, are these.
fn sets_of(values: &[i32; Settings::LINES]) -> [Gains; Settings::SETS]
    ensures { result ≡ sets_from heads sets values.now }
{
    array::from_fn(|k| gains_from(values, Settings::HEAD + Settings::KEYS * k))
}

// The settings whose values, in the order of the lines, are these.
pub fn settings_of(values: [i32; Settings::LINES]) -> Settings
    ensures { result ≡ settings_of values }
{
    let gains = sets_of(&values);
    let [action, lo, hi, out, sp, rate, mean, jump, ..] = values;
    Settings {
        action,
        lo,
        hi,
        out,
        sp,
        rate,
        mean,
        jump,
        gains,
    }
}

// Values before any line of a text is read: one without the line mean "is read as mean 1", "and one without jump means
// 2,000,000".
pub fn unread() -> [i32; Settings::LINES]
    ensures { result ≡ unread }
{
    let mut values = [0; Settings::LINES];
    values[Settings::FIRST] = 1;
    values[Settings::FIRST + 1] = Settings::FARTHEST;
    values
}

// The settings with set 0 in the place of each set from n on.
pub fn filled(mut settings: Settings, n: usize) -> Settings
    ensures { result ≡ filled n settings }
{
    let first = settings.gains[0];
    let from = n.min(Settings::SETS);
    settings.gains[from..].fill(first);
    settings
}
