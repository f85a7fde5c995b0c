// A lent list of samples under the plain law, given in order; the front of a lent list takes the outputs.
ghost use Rattle.std.specs.Prelude.{◌≡◌, true, ◌≤◌, length, take};
ghost use Rattle.refusal.specs.Refusal.{code_for};
ghost use Rattle.temperature.specs.Temperature.{first_code, ranged};
ghost use Rattle.window.specs.Means.{front_filled};
ghost use Rattle.record.specs.Record.{guard_of, valid};
ghost use Rattle.pid.specs.Told.{fixed_told, moving_told};
ghost use Rattle.pid.specs.Play.{moved_after, moved_outputs, reads_of, after_samples, outputs_of, refused_of, played_of, played_told, wrote_of};

use crate::law::{fixed, mean, moving, with_moving};
use crate::numbers::{Fixed, Moving};
use record::Loop;
use refusal::Refusal;
use temperature::{Bad, raw_after};

// What became of a list of samples, and the loop after them. It is no After<Loop>: its error has a place.
#[derive(Clone, Copy)]
pub struct Played {
    pub outcome: Result<(), Bad>,
    pub state: Loop,
}

// The first n places hold what the law reads, and then its outputs: what moves goes through the loop, and no record.
fn run(f: Fixed, start: Moving, n: usize, out: &mut [i32]) -> Moving
    requires { (n ≤ length out.old) × (ranged (take n out.old) ≡ true) }
    ensures value { moving_told result ≡ moved_after (fixed_told f) (moving_told start) (take n out.old) }
    ensures out_after { out.new ≡ front_filled (moved_outputs (fixed_told f) (moving_told start) (take n out.old)) out.old }
{
    let mut m = start;
    for place in &mut out[..n] {
        m = f.act(m, f.sense(m, *place));
        *place = m.u as i32;
    }
    m
}

fn refused(l: Loop, bad: Bad) -> Played
    ensures { played_told result ≡ refused_of l (code_for bad.refusal) bad.place }
{
    Played {
        outcome: Err(bad),
        state: l,
    }
}

// A refusal that is of no sample: its place is 0. Built here, since what `refused` hands on would be cleared and copied once more.
fn stopped(l: Loop, refusal: Refusal) -> Played
    ensures { played_told result ≡ refused_of l (code_for refusal) 0 }
{
    Played {
        outcome: Err(Bad { refusal, place: 0 }),
        state: l,
    }
}

// The means stand in the list: every sample is good, and has its place.
fn give(l: Loop, samples: &[i32], out: &mut [i32]) -> Loop
    requires { (valid l ≡ true) × (first_code (guard_of l) samples.now ≡ 0) × (length samples.now ≤ length out.old) × (take (length samples.now) out.old ≡ reads_of l samples.now) }
    ensures value { result ≡ after_samples l samples.now }
    ensures out_after { out.new ≡ front_filled (outputs_of l samples.now) out.old }
{
    let m = run(fixed(l), moving(l), samples.len(), out);
    with_moving(l, l.window.after(samples), raw_after(l.raw, samples), m)
}

// 10, then 12, then 4 or 19 with the place of the earliest bad sample; else every sample is given once.
pub fn play(l: Loop, samples: &[i32], out: &mut [i32]) -> Played
    ensures value { played_told result ≡ played_of l samples.now (length out.old) }
    ensures out_after { out.new ≡ wrote_of l samples.now out.old }
{
    if !l.is_valid() {
        return stopped(l, Refusal::BrokenRecord);
    }
    if out.len() < samples.len() {
        return stopped(l, Refusal::ShortOutputs);
    }
    if let Err(bad) = l.window.means(mean(l), l.guard(), samples, out) {
        return refused(l, bad);
    }
    Played {
        outcome: Ok(()),
        state: give(l, samples, out),
    }
}
