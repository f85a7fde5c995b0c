// What is wrong with a command's content.
ghost use Rattle.std.specs.Prelude.{◌≡◌};
ghost use Rattle.refusal.specs.Refusal.{code_in};
ghost use Rattle.record.specs.Refusals.{sample_refusal, put_refusal, target_refusal, set_refusal, refusal_of};

use crate::Loop;
use command::Command;
use refusal::Refusal;
use settings::Settings;

fn check_target(t: i32, r: i32) -> Result<(), Refusal>
    ensures { code_in result ≡ target_refusal t r }
{
    if !(-Loop::REACH..=Loop::REACH).contains(&t) {
        return Err(Refusal::Target);
    }
    if !(1..=Loop::FASTEST).contains(&r) {
        return Err(Refusal::Rate);
    }
    Ok(())
}

// The number of the last gain set.
const LAST_SET: i32 = Settings::SETS as i32 - 1;

fn check_set(k: i32) -> Result<(), Refusal>
    ensures { code_in result ≡ set_refusal k }
{
    if !(0..=LAST_SET).contains(&k) {
        return Err(Refusal::NoSet);
    }
    Ok(())
}

impl Loop {
    fn check_sample(self, pv: i32) -> Result<(), Refusal>
        ensures { code_in result ≡ sample_refusal self pv }
    {
        self.guard().check(pv)
    }

    fn check_put(self, x: i32) -> Result<(), Refusal>
        ensures { code_in result ≡ put_refusal self x }
    {
        if self.automatic {
            return Err(Refusal::PutInAutomatic);
        }
        if !(self.settings.lo..=self.settings.hi).contains(&x) {
            return Err(Refusal::PutOutside);
        }
        Ok(())
    }

    // What is wrong with a command's content, if anything is.
    #[tactic(auto, unfolding(crate::specs::Refusals::refusal_of))]
    pub fn check(self, c: Command) -> Result<(), Refusal>
        ensures { code_in result ≡ refusal_of self c }
    {
        match c {
            Command::Sample(pv) => self.check_sample(pv),
            Command::Put(x) => self.check_put(x),
            Command::Target(t, r) => check_target(t, r),
            Command::Set(k) => check_set(k),
            Command::Hold | Command::Automatic => Ok(()),
        }
    }
}
