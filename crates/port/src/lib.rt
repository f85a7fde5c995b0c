// The replay, and a delivery after it, for programs in other languages: what `port_c` exports.
#![tactic(auto)]

ghost use Rattle.std.specs.Prelude.{◌≡◌, pos, length};
ghost use Rattle.refusal.specs.Refusal.{code_in};
ghost use Rattle.delivery.specs.Numbered.{delivered_told};
ghost use Rattle.delivery.specs.Replay.{written_of};
ghost use Rattle.port.specs.Port.{settings_in, automatic_of, aimed_of, ready_of, code_of, place_of, out_of, remembering_of, late_of, late_code, late_output, late_number, late_out};

use command::Command;
use delivery::numbered::{Delivered, Numbered};
use memory::Memory;
use refusal::Refusal;
use settings::Settings;
use values::settings_of;

// What a replay starts from: settings, a gain set, a target, a sample before it, and whether a hold follows that, which is where
// `held` is not 0.
#[derive(Clone, Copy)]
struct Start {
    settings: Settings,
    set: i32,
    target: i32,
    before: i32,
    held: i32,
}

// The settings of a list that has as many values as settings have.
fn settings_in(values: &[i32]) -> Result<Settings, Refusal>
    ensures { result ≡ settings_in values.now }
{
    match <[i32; Settings::LINES]>::try_from(values) {
        Ok(values) => Ok(settings_of(values)),
        Err(_) => Err(Refusal::SettingOutside),
    }
}

// The code of what became of a call, as C has it.
fn code_for_c(outcome: Result<(), Refusal>) -> i32
    ensures { result ≡ pos (code_in outcome) }
{
    i32::from(refusal::code(outcome))
}

// A loop made of these settings, automatic.
fn automatic(settings: Settings) -> Numbered
    ensures { result ≡ automatic_of settings }
{
    let fresh = Numbered::make(settings).state;
    fresh.deliver(1, Command::Automatic).state
}

impl Start {
    // An automatic loop with the gain set, and the target at the settings' rate.
    fn aimed(self) -> Numbered
        ensures { result ≡ aimed_of self.settings self.set self.target }
    {
        let automatic = automatic(self.settings);
        let chosen = automatic.deliver(2, Command::Set(self.set)).state;
        let target = Command::Target(self.target, self.settings.rate);
        chosen.deliver(3, target).state
    }

    // The loop that is replayed: after a sample, and perhaps after a hold. Where the sample is refused, nothing is kept of either.
    fn ready(self) -> Numbered
        ensures { result ≡ ready_of self.settings self.set self.target self.before self.held }
    {
        let aimed = self.aimed();
        let sampled = aimed.deliver(4, Command::Sample(self.before)).state;
        if self.held == 0 {
            return sampled;
        }
        sampled.deliver(5, Command::Hold).state
    }
}

// The code of a replay from that loop; the place where a sample is refused is written through `place`.
pub fn port_replay(
    values: &[i32],
    set: i32,
    target: i32,
    before: i32,
    held: i32,
    first: u32,
    samples: &[i32],
    out: &mut [i32],
    place: &mut usize,
) -> i32
    ensures value { result ≡ code_of values.now set target before held first samples.now (length out.old) }
    ensures place_after { place.new ≡ place_of values.now set target before held first samples.now (length out.old) }
    ensures out_after { out.new ≡ out_of values.now set target before held first samples.now out.old }
{
    match settings_in(values) {
        Ok(settings) => {
            let start = Start {
                settings,
                set,
                target,
                before,
                held,
            };
            match start.ready().replay(first, samples, out).outcome {
                Ok(_) => {
                    *place = 0;
                    0
                }
                Err(bad) => {
                    *place = bad.place;
                    code_for_c(Err(bad.refusal))
                }
            }
        }
        Err(refusal) => {
            *place = 0;
            code_for_c(Err(refusal))
        }
    }
}

// A loop that remembers what it is told to: a last number, and samples, oldest first, each with the output at its place. So a caller
// can stand at any number, and beside a memory that breaks the state rules.
fn remembering(settings: Settings, last: u32, earlier: &[i32], answered: &[i32]) -> Numbered
    ensures { result ≡ remembering_of settings last earlier.now answered.now }
{
    Numbered {
        state: automatic(settings).state,
        memory: Memory::blank().fill(last, earlier, answered),
    }
}

// A replay, and then a sample under a number.
fn late(
    start: Numbered,
    first: u32,
    samples: &[i32],
    out: &mut [i32],
    number: u32,
    value: i32,
) -> Delivered
    ensures value { delivered_told result ≡ late_of start first samples.now (length out.old) number value }
    ensures out_after { out.new ≡ written_of start first samples.now out.old }
{
    let replayed = start.replay(first, samples, out).state;
    replayed.deliver(number, Command::Sample(value))
}

// The code of that sample; its answer's output and number are written through `output` and `told`.
pub fn port_late(
    values: &[i32],
    last: u32,
    earlier: &[i32],
    answered: &[i32],
    first: u32,
    samples: &[i32],
    out: &mut [i32],
    number: u32,
    value: i32,
    output: &mut i32,
    told: &mut u32,
) -> i32
    ensures value { result ≡ late_code values.now last earlier.now answered.now first samples.now (length out.old) number value }
    ensures output_after { output.new ≡ late_output values.now last earlier.now answered.now first samples.now (length out.old) number value }
    ensures told_after { told.new ≡ late_number values.now last earlier.now answered.now first samples.now (length out.old) number value }
    ensures out_after { out.new ≡ late_out values.now last earlier.now answered.now first samples.now out.old }
{
    match settings_in(values) {
        Ok(settings) => {
            let start = remembering(settings, last, earlier, answered);
            let done = late(start, first, samples, out, number, value);
            *output = done.output;
            *told = done.number;
            code_for_c(done.outcome)
        }
        Err(refusal) => {
            *output = 0;
            *told = 0;
            code_for_c(Err(refusal))
        }
    }
}
