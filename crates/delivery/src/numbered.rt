// 01's record as the queue sees it: a loop and what it remembers of its deliveries. Making one, its state rules, a delivery.
ghost use Rattle.std.specs.Prelude.{◌≡◌};
ghost use Rattle.refusal.specs.Refusal.{code_for, code_in};
ghost use Rattle.delivery.specs.Numbered.{new_of, made_told, made_of, blank_of, memory_ok, valid_of, delivered_told, refused_as, repeat_of, settled_of, tried_of, delivered_of};

use command::Command;
use memory::{Entry, Found, Memory};
use pid::law::obey;
use record::{After, Loop};
use refusal::Refusal;
use settings::Settings;

#[derive(Clone, Copy)]
pub struct Numbered {
    pub state: Loop,
    pub memory: Memory,
}

// "An answer is a code, the output in force and the last number in force", and the record stands beside it.
#[derive(Clone, Copy)]
pub struct Delivered {
    pub outcome: Result<(), Refusal>,
    pub output: i32,
    pub number: u32,
    pub state: Numbered,
}

impl Numbered {
    // A loop to which nothing has been delivered.
    pub fn new(state: Loop) -> Numbered
        ensures { result ≡ new_of state }
    {
        Numbered {
            state,
            memory: Memory::blank(),
        }
    }

    pub fn blank() -> Numbered
        ensures { result ≡ blank_of }
    {
        Numbered::new(Loop::blank())
    }

    // "Making a loop from settings tests 11, then 16."
    pub fn make(settings: Settings) -> After<Numbered>
        ensures { made_told result ≡ made_of settings }
    {
        let After { outcome, state } = Loop::make(settings);
        After {
            outcome,
            state: Numbered::new(state),
        }
    }

    // Whether the memory keeps its state rules beside this loop.
    pub(crate) fn remembers(self) -> bool
        ensures { result ≡ memory_ok self }
    {
        self.memory
            .fits(self.state.settings.lo, self.state.settings.hi)
    }

    // Whether the record keeps the state rules.
    pub fn is_valid(self) -> bool
        ensures { result ≡ valid_of self }
    {
        self.remembers() & self.state.is_valid()
    }

    fn answer(self, outcome: Result<(), Refusal>) -> Delivered
        ensures { delivered_told result ≡ refused_as (code_in outcome) self }
    {
        let (output, number) = match outcome {
            Err(Refusal::BrokenRecord) => (0, 0),
            _ => (self.state.u, self.memory.number),
        };
        Delivered {
            outcome,
            output,
            number,
            state: self,
        }
    }

    // What the number alone refuses comes after 10.
    fn settle(self, refusal: Refusal) -> Delivered
        ensures { delivered_told result ≡ settled_of self (refused_as (code_for refusal) self) }
    {
        let first = if self.state.is_valid() {
            refusal
        } else {
            Refusal::BrokenRecord
        };
        self.answer(Err(first))
    }

    // A repeat "gets its first answer again: code 0, that output and its own number".
    fn again(self, number: u32, e: Entry) -> Delivered
        ensures { delivered_told result ≡ settled_of self (repeat_of number e self) }
    {
        let (outcome, output, number) = if self.state.is_valid() {
            (Ok(()), e.output, number)
        } else {
            (Err(Refusal::BrokenRecord), 0, 0)
        };
        Delivered {
            outcome,
            output,
            number,
            state: self,
        }
    }

    // "Number = last + 1: the law is tried". It tests the loop's own state rules.
    fn attempt(self, number: u32, c: Command) -> Delivered
        ensures { delivered_told result ≡ tried_of self number c }
    {
        let After { outcome, state } = obey(self.state, c);
        let memory = match outcome {
            Ok(()) => self.memory.remember(number, c, state.u),
            Err(_) => self.memory,
        };
        Numbered { state, memory }.answer(outcome)
    }

    // One delivery: "10; then 1, 2, 3; then content". Every path tests each state rule once.
    pub fn deliver(self, number: u32, c: Command) -> Delivered
        ensures { delivered_told result ≡ delivered_of self number c }
    {
        if !self.remembers() {
            return self.answer(Err(Refusal::BrokenRecord));
        }
        match self.memory.find(number, c) {
            Found::Old => self.settle(Refusal::Old),
            Found::Reused => self.settle(Refusal::Reused),
            Found::Ahead => self.settle(Refusal::Ahead),
            Found::Repeated(e) => self.again(number, e),
            Found::Next => self.attempt(number, c),
        }
    }
}
