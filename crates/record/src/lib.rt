// What a loop remembers, the state rules, and the making of a loop from settings; what is wrong with a command's content, what the
// commands do that are no samples, and how many samples remain until w is at its target. Each module has its definitions in specs/
// under the same name, and what stands here has them in specs/Record.antt.
#![tactic(auto)]

ghost use Rattle.std.specs.Prelude.{◌≡◌};
ghost use Rattle.record.specs.Record.{fresh_of, blank_loop, made_told, made_of, places_ok, fine_ok, pending_ok, guard_of, valid};

use refusal::Refusal;
use settings::Settings;
use temperature::Guard;
use window::Window;

mod commands;
mod refusals;
mod remaining;

// The flags, the gain set's number and the settings' action are no enums: the state rules and the settings' table speak of records
// in which they fit neither each other nor a range.
#[derive(Clone, Copy)]
pub struct Loop {
    pub settings: Settings,
    pub automatic: bool,
    pub pending: bool,
    pub set: usize,
    pub w: i32,
    pub target: i32,
    pub rate: i32,
    pub u: i32,
    pub integral: i64,
    pub primed: bool,
    pub y: i64,
    pub window: Window,
    pub raw: i32,
}

// What became of a call, and the state that stands beside the answer: on a refusal too there is one.
#[derive(Clone, Copy)]
pub struct After<S> {
    pub outcome: Result<(), Refusal>,
    pub state: S,
}

// "Fresh loops and the constants above belong to the loop's type."
impl Loop {
    // A fine amount is an output amount times F.
    pub const F: i64 = 65_536;

    // The most of the integral, fine, its sign left aside.
    pub const B: i64 = 16_842_752_000_000;

    // The most of a temperature and of an output, their signs left aside.
    pub const REACH: i32 = Settings::REACH;

    // The most of the filter, which is a temperature times F, its sign left aside.
    pub const FINE_REACH: i64 = 65_536_000_000;

    // The most of a rate.
    pub const FASTEST: i32 = Settings::FASTEST;

    // The most of kp, ki and kd: 64 times F.
    pub const GAIN: i32 = Settings::GAIN;

    // The most of alpha and kt: F itself.
    pub const SHARE: i32 = Settings::SHARE;

    pub fn fresh(settings: Settings) -> Loop
        ensures { result ≡ fresh_of settings }
    {
        Loop {
            settings,
            automatic: false,
            pending: false,
            set: 0,
            w: settings.sp,
            target: settings.sp,
            rate: settings.rate,
            u: settings.out,
            integral: 0,
            primed: false,
            y: 0,
            window: Window::fresh(),
            raw: 0,
        }
    }

    pub fn blank() -> Loop
        ensures { result ≡ blank_loop }
    {
        Loop::fresh(Settings::blank())
    }

    pub fn make(settings: Settings) -> After<Loop>
        ensures { made_told result ≡ made_of settings }
    {
        match settings.check() {
            Ok(()) => After {
                outcome: Ok(()),
                state: Loop::fresh(settings),
            },
            Err(refusal) => After {
                outcome: Err(refusal),
                state: Loop::blank(),
            },
        }
    }

    fn places_ok(self) -> bool
        ensures { result ≡ places_ok self }
    {
        (-Loop::REACH..=Loop::REACH).contains(&self.w)
            & (-Loop::REACH..=Loop::REACH).contains(&self.target)
            & (1..=Loop::FASTEST).contains(&self.rate)
            & (self.set < Settings::SETS)
            & (self.settings.lo..=self.settings.hi).contains(&self.u)
    }

    fn fine_ok(self) -> bool
        ensures { result ≡ fine_ok self }
    {
        (-Loop::B..=Loop::B).contains(&self.integral)
            & (-Loop::FINE_REACH..=Loop::FINE_REACH).contains(&self.y)
            & (self.primed | (self.y == 0))
    }

    fn pending_ok(self) -> bool
        ensures { result ≡ pending_ok self }
    {
        self.automatic | !self.pending
    }

    // What a raw temperature is held against.
    pub fn guard(self) -> Guard
        ensures { result ≡ guard_of self }
    {
        Guard {
            automatic: self.automatic,
            primed: self.primed,
            jump: self.settings.jump,
            raw: self.raw,
        }
    }

    // Whether the record keeps the state rules.
    pub fn is_valid(self) -> bool
        ensures { result ≡ valid self }
    {
        self.settings.in_table()
            & self.settings.is_ordered()
            & self.places_ok()
            & self.fine_ok()
            & self.pending_ok()
            & self.window.is_valid()
            & self.guard().is_valid()
    }
}
