// Replay: a lent list of samples is delivered in one call, and the front of a lent list takes the outputs.
ghost use Rattle.std.specs.Prelude.{◌≡◌, true, ◌+◌, ◌≤◌, length};
ghost use Rattle.delivery.specs.Numbered.{memory_ok};
ghost use Rattle.refusal.specs.Refusal.{code_in};
ghost use Rattle.delivery.specs.Replay.{numbers_left, numbers_refusal, admission, left_told, replayed_told, replayed_of, written_of};

use crate::numbered::Numbered;
use pid::play::play;
use refusal::Refusal;
use temperature::Bad;

// What became of a replay, how many samples were delivered or which is the earliest bad one, and the record beside it.
#[derive(Clone, Copy)]
pub struct Replayed {
    pub outcome: Result<usize, Bad>,
    pub state: Numbered,
}

impl Numbered {
    // "First number 0 or at most last: 1; above last + 1: 3; 12; 13".
    fn check_numbers(self, first: u32, count: usize, room: usize) -> Result<(), Refusal>
        ensures { code_in result ≡ numbers_refusal self first count room }
    {
        let last = self.memory.number;
        if first <= last {
            return Err(Refusal::Old);
        }
        if 1 < first - last {
            return Err(Refusal::Ahead);
        }
        if room < count {
            return Err(Refusal::ShortOutputs);
        }
        if ((u32::MAX - last) as usize) < count {
            return Err(Refusal::ManySamples);
        }
        Ok(())
    }

    // "Order: 10; [..]". What is not refused here tests the loop's own state rules under the law.
    fn admit(self, first: u32, count: usize, room: usize) -> Result<(), Refusal>
        ensures { code_in result ≡ admission self first count room }
    {
        if !self.remembers() {
            return Err(Refusal::BrokenRecord);
        }
        match self.check_numbers(first, count, room) {
            Ok(()) => Ok(()),
            Err(refusal) if self.state.is_valid() => Err(refusal),
            Err(_) => Err(Refusal::BrokenRecord),
        }
    }

    // The record once these samples are delivered from the next number on: every one has its place and its number.
    fn replayed(self, samples: &[i32], out: &mut [i32]) -> Result<Numbered, Bad>
        requires { (memory_ok self ≡ true) × (length samples.now ≤ length out.old) × (length samples.now ≤ numbers_left self) }
        ensures value { left_told self (length samples.now) result ≡ replayed_of self (self.memory.number + 1) samples.now (length out.old) }
        ensures out_after { out.new ≡ written_of self (self.memory.number + 1) samples.now out.old }
    {
        let played = play(self.state, samples, out);
        played.outcome?;
        let number = self.memory.number + samples.len() as u32;
        Ok(Numbered {
            state: played.state,
            memory: self.memory.fill(number, samples, out),
        })
    }

    // "Order: 10; first number 0 or at most last: 1; above last + 1: 3; 12; 13; then 4", or 19.
    pub fn replay(self, first: u32, samples: &[i32], out: &mut [i32]) -> Replayed
        ensures value { replayed_told result ≡ replayed_of self first samples.now (length out.old) }
        ensures out_after { out.new ≡ written_of self first samples.now out.old }
    {
        if let Err(refusal) = self.admit(first, samples.len(), out.len()) {
            return Replayed {
                outcome: Err(Bad { refusal, place: 0 }),
                state: self,
            };
        }
        match self.replayed(samples, out) {
            Ok(state) => Replayed {
                outcome: Ok(samples.len()),
                state,
            },
            Err(bad) => Replayed {
                outcome: Err(bad),
                state: self,
            },
        }
    }
}
