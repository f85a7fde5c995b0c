// The settings of a loop, and what is wrong with them.
#![tactic(auto)]

ghost use Rattle.std.specs.Prelude.{◌≡◌};
ghost use Rattle.refusal.specs.Refusal.{code_in};
ghost use Rattle.settings.specs.Settings.{no_gains, blank_settings, ordered, settings_refusal};

pub mod table;

use refusal::Refusal;

// One gain set.
#[derive(Clone, Copy)]
pub struct Gains {
    pub kp: i32,
    pub ki: i32,
    pub kd: i32,
    pub alpha: i32,
    pub kt: i32,
}

// Numbers, whatever they are: action is no enum, since code 11 answers for one that is neither 0 nor 1.
#[derive(Clone, Copy)]
pub struct Settings {
    pub action: i32,
    pub lo: i32,
    pub hi: i32,
    pub out: i32,
    pub sp: i32,
    pub rate: i32,
    pub mean: i32,
    pub jump: i32,
    pub gains: [Gains; Settings::SETS],
}

impl Settings {
    // The most of a temperature and of an output, their signs left aside.
    pub const REACH: i32 = 1_000_000;

    // The most of a rate.
    pub const FASTEST: i32 = 2_000_000;

    // The most of kp, ki and kd: 64 times F.
    pub const GAIN: i32 = 4_194_304;

    // The most of alpha and kt: F itself.
    pub const SHARE: i32 = 65_536;

    // "m from 1 to 128, kept in a window of 128 places"
    pub const WINDOW: usize = 128;

    // The most of a jump: so far apart two temperatures can be.
    pub const FARTHEST: i32 = 2_000_000;

    // "Raise four to sixteen": gain sets 0 to 15.
    pub const SETS: usize = 16;

    // How many keys every text has before those of the gain sets: action, lo, hi, out, sp, rate.
    pub const FIRST: usize = 6;

    // How many stand before those of the gain sets, with mean and jump.
    pub const HEAD: usize = Settings::FIRST + 2;

    // How many stand in each gain set: kp, ki, kd, alpha, kt.
    pub const KEYS: usize = 5;

    // The lines of a settings text that leaves none out, and so the values of settings.
    pub const LINES: usize = Settings::HEAD + Settings::KEYS * Settings::SETS;
}

impl Gains {
    pub fn blank() -> Gains
        ensures { result ≡ no_gains }
    {
        Gains {
            kp: 0,
            ki: 0,
            kd: 0,
            alpha: 0,
            kt: 0,
        }
    }
}

impl Settings {
    // Every number zero.
    pub fn blank() -> Settings
        ensures { result ≡ blank_settings }
    {
        Settings {
            action: 0,
            lo: 0,
            hi: 0,
            out: 0,
            sp: 0,
            rate: 0,
            mean: 0,
            jump: 0,
            gains: [Gains::blank(); Settings::SETS],
        }
    }

    // Whether lo is below hi, and out lies between them.
    pub fn is_ordered(self) -> bool
        ensures { result ≡ ordered self }
    {
        (self.lo < self.hi) & ((self.lo <= self.out) & (self.out <= self.hi))
    }

    // What is wrong with the settings, 11 before 16.
    pub fn check(self) -> Result<(), Refusal>
        ensures { code_in result ≡ settings_refusal self }
    {
        if !self.in_table() {
            return Err(Refusal::SettingOutside);
        }
        if !self.is_ordered() {
            return Err(Refusal::Limits);
        }
        Ok(())
    }
}
