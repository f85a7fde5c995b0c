// A list of samples taken one after the other: the mean after each, and the window after all.
ghost use Rattle.std.specs.Prelude.{◌≡◌, true, [], ◌+◌, ◌<◌, ◌≤◌, min, length, get_or, take, drop, pos};
ghost use Rattle.std.proofs.lemmas.List.Edits.{sets};
ghost use Rattle.settings.specs.Table.{window};
ghost use Rattle.temperature.specs.Temperature.{ranged, bad_of, bad_told};
ghost use Rattle.window.specs.Means.{past_of, after_all, means_of, front_filled, means_into};
ghost use Rattle.window.specs.Bounds.{Bits, summed_of};
ghost use Rattle.window.specs.Running.{onto, counted_on, means_at};
ghost use Rattle.window.specs.Window.{sum_of};

use crate::{Window, mean_of, sum_of};
use settings::Settings;
use temperature::{Bad, Guard};

// The newest temperatures that a mean goes over: how many there are, and their sum.
#[derive(Clone, Copy)]
pub struct Summed {
    pub n: usize,
    pub sum: i64,
}

// The temperature j places before the newest, after n of the samples: one of them, or one of those before them.
fn past(places: &[i32; Settings::WINDOW], samples: &[i32], n: usize, j: usize) -> i32
    requires { (n ≤ length samples.now) × (j < n + window) }
    ensures { result ≡ get_or (past_of places.now samples.now n) j (pos 0) }
{
    if j < n {
        return samples[n - 1 - j];
    }
    places[j - n]
}

// The sum runs, widened by `as` as in `sum_of`: sample i comes, and where `most` of them are counted the oldest leaves, which is one of those before the samples.
fn next(
    s: Summed,
    most: usize,
    places: &[i32; Settings::WINDOW],
    samples: &[i32],
    i: usize,
) -> Summed
    requires { (s.n ≤ most) × (most ≤ window) × (i < most) × (i < length samples.now) × Bits places.now × Bits samples.now × (s ≡ summed_of s.n (past_of places.now samples.now i)) }
    ensures { result ≡ summed_of (min most (s.n + 1)) (past_of places.now samples.now (i + 1)) }
{
    let sum = s.sum + samples[i] as i64;
    if s.n < most {
        return Summed { n: s.n + 1, sum };
    }
    let gone = places[most - 1 - i] as i64;
    Summed {
        n: s.n,
        sum: sum - gone,
    }
}

// The mean after each of the first samples, which are at most `most`, and what is counted after them.
fn put_first(
    places: &[i32; Settings::WINDOW],
    most: usize,
    n: usize,
    samples: &[i32],
    out: &mut [i32],
) -> Summed
    requires { (n ≤ most) × (most ≤ window) × (length samples.now ≤ most) × (length samples.now ≤ length out.old) × Bits places.now × Bits samples.now }
    ensures value { result ≡ summed_of (counted_on most n samples.now) (onto places.now samples.now) }
    ensures out_after { out.new ≡ sets out.old 0 (means_at most n places.now samples.now) }
{
    let mut s = Summed {
        n,
        sum: sum_of(places, n),
    };
    for i in 0..samples.len() {
        s = next(s, most, places, samples, i);
        out[i] = mean_of(s.sum, s.n);
    }
    s
}

// The mean after each of the others. What leaves the sum is read from the samples themselves; they lie in range, so that the sum
// fits 32 bits, and the division is one of 32.
fn put_rest(start: i32, most: usize, samples: &[i32], out: &mut [i32])
    requires { (most ≤ window) × (most ≤ length samples.now) × (length samples.now ≤ length out.old) × (ranged samples.now ≡ true) × (start ≡ sum_of (take most (past_of [] samples.now most))) }
    ensures { out.new ≡ sets out.old most (means_at most most (past_of [] samples.now most) (drop most samples.now)) }
{
    let mut sum = start;
    for i in most..samples.len() {
        sum = sum + samples[i] - samples[i - most];
        out[i] = mean_of(sum as i64, most);
    }
}

// The mean over the last one is the sample itself. Place by place: a copy from one lent list to another by std's `copy_from_slice`
// calls `memmove`, which the archive for C would then need from outside.
fn put_samples(samples: &[i32], out: &mut [i32])
    requires { length samples.now ≤ length out.old }
    ensures { out.new ≡ sets out.old 0 samples.now }
{
    for i in 0..samples.len() {
        out[i] = samples[i];
    }
}

impl Window {
    // The sum is kept in a local, and no window goes through the loop.
    fn put_means(self, m: usize, samples: &[i32], out: &mut [i32])
        requires { (ranged samples.now ≡ true) × (length samples.now ≤ length out.old) }
        ensures { out.new ≡ front_filled (means_of m self samples.now) out.old }
    {
        if m == 1 {
            put_samples(samples, out);
            return;
        }
        let most = m.min(Settings::WINDOW);
        let n = self.counted(m);
        if samples.len() <= most {
            put_first(&self.places, most, n, samples, out);
            return;
        }
        let s = put_first(&self.places, most, n, &samples[..most], out);
        put_rest(s.sum as i32, most, samples, out);
    }

    // Codes 4 and 19 test the raw ones: the earliest bad sample. Where none is bad, the mean after each is put in the front of a
    // list that has room for them.
    pub fn means(self, m: usize, guard: Guard, samples: &[i32], out: &mut [i32]) -> Result<(), Bad>
        ensures value { bad_told (length samples.now) result ≡ bad_of guard samples.now }
        ensures out_after { out.new ≡ means_into m self guard samples.now out.old }
    {
        guard.first_bad(samples)?;
        if out.len() < samples.len() {
            return Ok(());
        }
        self.put_means(m, samples, out);
        Ok(())
    }

    // The window after every sample, each place filled once.
    pub fn after(self, samples: &[i32]) -> Window
        ensures { result ≡ after_all self samples.now }
    {
        if samples.is_empty() {
            return self;
        }
        let before = self.seen.min(Settings::WINDOW);
        let seen = (before + samples.len().min(Settings::WINDOW)).min(Settings::WINDOW);
        let mut places = self.places;
        for (i, place) in places.iter_mut().enumerate() {
            *place = past(&self.places, samples, samples.len(), i);
        }
        Window { places, seen }
    }
}
