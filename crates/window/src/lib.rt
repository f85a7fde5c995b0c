// The window of raw temperatures ahead of the filter: its rules, what it takes, and the mean of the last of them.
#![tactic(auto)]

ghost use Rattle.std.specs.Prelude.{◌≡◌, ◌+◌, ◌≤◌, min, take};
ghost use Rattle.whole.specs.Numbers.{Within, size};
ghost use Rattle.whole.specs.Rounding.{nearest};
ghost use Rattle.settings.specs.Table.{window};
ghost use Rattle.window.specs.Window.{fresh_window, place_ok, window_ok, taken, latest, sum_of, mean_of};
ghost use Rattle.window.specs.Bounds.{Bits, sum_most, MeanOk};

use settings::Settings;

pub mod means;

// "kept in a window of 128 places", newest first, and how many temperatures are seen: the state rule is of both.
#[derive(Clone, Copy)]
pub struct Window {
    pub places: [i32; Settings::WINDOW],
    pub seen: usize,
}

// A temperature that is seen lies in range, and a place that is not filled is zero; a flag, as the definition has it.
fn place_ok(filled: bool, x: i32) -> bool
    ensures { result ≡ place_ok filled x }
{
    if filled {
        (-Settings::REACH..=Settings::REACH).contains(&x)
    } else {
        x == 0
    }
}

// The mean of n temperatures from their sum. Halves go away from zero: sizes are divided, and the sign is put back.
pub(crate) fn mean_of(sum: i64, n: usize) -> i32
    requires { MeanOk sum n }
    ensures { result ≡ nearest sum n }
{
    if n == 0 {
        return 0;
    }
    let mean = (whole::size(sum) + n / 2) / n;
    if sum < 0 {
        -(mean as i64) as i32
    } else {
        mean as i32
    }
}

// The sum of the first n places. Widened by `as`: the search that no sum wraps does not look into the result of `i64::from`.
pub(crate) fn sum_of(places: &[i32; Settings::WINDOW], n: usize) -> i64
    requires { (n ≤ window) × Bits places.now }
    ensures { result ≡ sum_of (take n places.now) }
{
    let mut sum: i64 = 0;
    for x in &places[..n] {
        sum += *x as i64;
    }
    sum
}

impl Window {
    // "a window of 128 places that starts filled with zeros"
    pub fn fresh() -> Window
        ensures { result ≡ fresh_window }
    {
        Window {
            places: [0; Settings::WINDOW],
            seen: 0,
        }
    }

    // Whether the window keeps its state rules. Every place is looked at, so that no test breaks the loop off.
    pub fn is_valid(self) -> bool
        ensures { result ≡ window_ok self }
    {
        let mut ok = self.seen <= Settings::WINDOW;
        for (i, x) in self.places.iter().enumerate() {
            ok &= place_ok(i < self.seen, *x);
        }
        ok
    }

    // "The window takes every kept sample": the new temperature stands first, and the oldest leaves. `copy_within` would call `memmove`,
    // which the archive for C would then need from outside.
    pub fn taken(self, pv: i32) -> Window
        ensures { result ≡ taken self pv }
    {
        let mut places = [pv; Settings::WINDOW];
        places[1..].copy_from_slice(&self.places[..Settings::WINDOW - 1]);
        let seen = self.seen.min(Settings::WINDOW - 1) + 1;
        Window { places, seen }
    }

    // How many of those seen a mean over the last m goes over.
    pub(crate) fn counted(self, m: usize) -> usize
        ensures { result ≡ min m (min self.seen window) }
    {
        m.min(self.seen.min(Settings::WINDOW))
    }

    // The mean over the last m temperatures, or over those seen.
    pub fn mean(self, m: usize) -> i32
        ensures { result ≡ mean_of (latest m self) }
    {
        let n = self.counted(m);
        mean_of(sum_of(&self.places, n), n)
    }
}
