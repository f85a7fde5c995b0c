// A raw temperature: whether it is taken, and which of a list is the first that is not.
#![tactic(auto)]

ghost use Rattle.std.specs.Prelude.{◌≡◌, length};
ghost use Rattle.refusal.specs.Refusal.{code_in};
ghost use Rattle.temperature.specs.Temperature.{raw_ok, further, jumps, code_of, past, bad_of, bad_told, raw_after};

use refusal::Refusal;
use settings::Settings;

// What a sample is held against: the loop's mode, whether there was a sample before, how far from that it may be, and "the last
// kept raw temperature". The flags are the record's, whose state rules speak of every pair.
#[derive(Clone, Copy)]
pub struct Guard {
    pub automatic: bool,
    pub primed: bool,
    pub jump: i32,
    pub raw: i32,
}

// The earliest bad sample of a list: why it is refused, and its place.
#[derive(Clone, Copy)]
pub struct Bad {
    pub refusal: Refusal,
    pub place: usize,
}

// Whether two temperatures lie further than jump from each other; in 64 bits, since a jump may be below zero.
fn further(jump: i32, raw: i32, pv: i32) -> bool
    ensures { result ≡ further jump raw pv }
{
    i64::from(jump) < i64::from(pv.abs_diff(raw))
}

impl Guard {
    // Whether the last kept raw temperature keeps its state rule.
    pub fn is_valid(self) -> bool
        ensures { result ≡ raw_ok self.primed self.raw }
    {
        (-Settings::REACH..=Settings::REACH).contains(&self.raw) & (self.primed | (self.raw == 0))
    }

    // Asked once a sample, so without a branch.
    fn jumps(self, pv: i32) -> bool
        ensures { result ≡ jumps self pv }
    {
        self.automatic & self.primed & further(self.jump, self.raw, pv)
    }

    // Whether a sample is taken; why not, 4 before 19.
    pub fn check(self, pv: i32) -> Result<(), Refusal>
        ensures { code_in result ≡ code_of self pv }
    {
        if !(-Settings::REACH..=Settings::REACH).contains(&pv) {
            return Err(Refusal::Temperature);
        }
        if self.jumps(pv) {
            return Err(Refusal::Jump);
        }
        Ok(())
    }

    // What the sample after pv is held against.
    fn past(mut self, pv: i32) -> Guard
        ensures { result ≡ past self pv }
    {
        self.primed = true;
        self.raw = pv;
        self
    }

    // "In a replay the test uses the sample before, and the earliest bad sample is reported with its code and place."
    pub fn first_bad(self, samples: &[i32]) -> Result<(), Bad>
        ensures { bad_told (length samples.now) result ≡ bad_of self samples.now }
    {
        let mut guard = self;
        for (place, &pv) in samples.iter().enumerate() {
            if let Err(refusal) = guard.check(pv) {
                return Err(Bad { refusal, place });
            }
            guard = guard.past(pv);
        }
        Ok(())
    }
}

// The last kept raw temperature after some samples, all of them kept.
pub fn raw_after(raw: i32, samples: &[i32]) -> i32
    ensures { result ≡ raw_after raw samples.now }
{
    samples.last().copied().unwrap_or(raw)
}
