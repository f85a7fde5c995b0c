// What is remembered of the deliveries, and what it says of a number: it looks into no loop. Its definitions are in
// specs/Memory.antt; specs/Walk.antt has the walk over any law.
#![tactic(auto)]

ghost use Rattle.std.specs.Prelude.{◌≡◌, ◌<◌, ◌≤◌, min, pos, length, get_or};
ghost use Rattle.command.specs.declared.Command.TheVariants.{Sample};
ghost use Rattle.memory.specs.Memory.{window, entry_of, no_entry, entry_ok, no_memory, memory_ok, found_in, found_of, remembered, entries_of, newest, filled_of};

use command::Command;
use std::array;

// A kept command "with the output" it "was answered".
#[derive(Clone, Copy)]
pub struct Entry {
    pub command: Option<Command>,
    pub output: i32,
}

// "last number (32 bits unsigned)", and "the last 32 kept commands", newest first: place i has the last number less i,
// so that the number tells which places are used.
#[derive(Clone, Copy)]
pub struct Memory {
    pub number: u32,
    pub entries: [Entry; Memory::WINDOW],
}

// What becomes of a delivery by its number, and by its command where one is remembered under that number.
#[derive(Clone, Copy)]
pub enum Found {
    Old,
    Reused,
    Repeated(Entry),
    Ahead,
    Next,
}

impl Entry {
    fn of(c: Command, output: i32) -> Entry
        ensures { result ≡ entry_of c output }
    {
        Entry {
            command: Some(c),
            output,
        }
    }

    // A place that is used has a command and an output within lo..hi, any other is blank; a flag, as the definition has it.
    fn fits(self, used: bool, lo: i32, hi: i32) -> bool
        ensures { result ≡ entry_ok used lo hi self }
    {
        match self.command {
            None => !used & (self.output == 0),
            Some(_) => used & (lo..=hi).contains(&self.output),
        }
    }

    // "A repeat of any of them, same number and values"; "A number in that window with other values is 2".
    #[tactic(auto, unfolding(crate::specs::Memory::found_in, crate::specs::Memory::is_last))]
    fn found(self, c: Command) -> Found
        ensures { result ≡ found_in self c }
    {
        match self.command {
            Some(kept) if kept.same(c) => Found::Repeated(self),
            _ => Found::Reused,
        }
    }

    // The entry of sample i of a list, with the output of its place.
    fn sampled(samples: &[i32], outputs: &[i32], i: usize) -> Entry
        requires { (i < length samples.now) × (i < length outputs.now) }
        ensures { result ≡ entry_of (Sample (get_or samples.now i (pos 0))) (get_or outputs.now i (pos 0)) }
    {
        Entry::of(Command::Sample(samples[i]), outputs[i])
    }
}

impl Memory {
    // "Keep the last 32 kept commands".
    pub const WINDOW: usize = 32;

    #[tactic(auto, unfolding(crate::specs::Memory::window))]
    pub fn blank() -> Memory
        ensures { result ≡ no_memory }
    {
        let none = Entry {
            command: None,
            output: 0,
        };
        Memory {
            number: 0,
            entries: [none; Memory::WINDOW],
        }
    }

    // Whether the memory keeps its state rules beside a loop whose limits are lo and hi.
    pub fn fits(self, lo: i32, hi: i32) -> bool
        ensures { result ≡ memory_ok lo hi self }
    {
        let number = self.number as usize;
        self.entries
            .iter()
            .enumerate()
            .all(|(i, e)| e.fits(i < number, lo, hi))
    }

    // "then 1, 2, 3": which of them, a repeat, or the next number.
    pub fn find(self, number: u32, c: Command) -> Found
        ensures { result ≡ found_of self number c }
    {
        let last = self.number;
        if number == 0 {
            return Found::Old;
        }
        if last < number {
            if 1 < number - last {
                return Found::Ahead;
            }
            return Found::Next;
        }
        let back = (last - number) as usize;
        if Memory::WINDOW <= back {
            return Found::Old;
        }
        self.entries[back].found(c)
    }

    // The memory once a command is kept under a number: its entry stands first, and the oldest leaves. Place by place, since a method
    // that is lent the entries has them copied, and a delivery takes a fifth more instructions.
    pub fn remember(self, number: u32, c: Command, output: i32) -> Memory
        ensures { result ≡ remembered self number c output }
    {
        let mut entries = [Entry::of(c, output); Memory::WINDOW];
        for i in 1..Memory::WINDOW {
            entries[i] = self.entries[i - 1];
        }
        Memory { number, entries }
    }

    // What stands at a place once these samples are remembered, each with the output of its place.
    #[tactic(auto, unfolding(crate::specs::Memory::window))]
    fn place(self, samples: &[i32], outputs: &[i32], i: usize) -> Entry
        requires { i < window }
        ensures { result ≡ get_or (newest self.entries (entries_of samples.now outputs.now)) i no_entry }
    {
        let n = samples.len().min(outputs.len());
        if i < n {
            return Entry::sampled(samples, outputs, n - 1 - i);
        }
        self.entries[i - n]
    }

    // The memory with these samples, each with the output of its place, the last of them under a number. Each place is
    // written once, however many samples there are.
    #[tactic(auto, unfolding(crate::specs::Memory::window))]
    pub fn fill(self, number: u32, samples: &[i32], outputs: &[i32]) -> Memory
        ensures { result ≡ filled_of self number samples.now outputs.now }
    {
        Memory {
            number,
            entries: array::from_fn(|i| self.place(samples, outputs, i)),
        }
    }
}
