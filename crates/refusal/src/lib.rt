// The refusals: one for each row of the paper's table of codes but the first, which is no refusal.
#![tactic(auto)]

ghost use Rattle.std.specs.Prelude.{◌≡◌};
ghost use Rattle.refusal.specs.Refusal.{code_for, code_in};

// Why something is refused, in the order of the codes.
#[derive(Clone, Copy, Debug, PartialEq, Eq)]
pub enum Refusal {
    Old,
    Reused,
    Ahead,
    Temperature,
    PutOutside,
    PutInAutomatic,
    Target,
    Rate,
    NoSet,
    BrokenRecord,
    SettingOutside,
    ShortOutputs,
    ManySamples,
    WrongForm,
    ValueOutside,
    Limits,
    BytesLeft,
    ShortBuffer,
    Jump,
}

impl From<Refusal> for u8 {
    ghost from_gives = { λ refusal n. n ≡ code_for refusal };

    fn from(refusal: Refusal) -> u8 {
        match refusal {
            Refusal::Old => 1,
            Refusal::Reused => 2,
            Refusal::Ahead => 3,
            Refusal::Temperature => 4,
            Refusal::PutOutside => 5,
            Refusal::PutInAutomatic => 6,
            Refusal::Target => 7,
            Refusal::Rate => 8,
            Refusal::NoSet => 9,
            Refusal::BrokenRecord => 10,
            Refusal::SettingOutside => 11,
            Refusal::ShortOutputs => 12,
            Refusal::ManySamples => 13,
            Refusal::WrongForm => 14,
            Refusal::ValueOutside => 15,
            Refusal::Limits => 16,
            Refusal::BytesLeft => 17,
            Refusal::ShortBuffer => 18,
            Refusal::Jump => 19,
        }
    }
}

// The code of what became of a call: 0 where it was done.
pub fn code(outcome: Result<(), Refusal>) -> u8
    ensures { result ≡ code_in outcome }
{
    match outcome {
        Ok(()) => 0,
        Err(refusal) => u8::from(refusal),
    }
}
