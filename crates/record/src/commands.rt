// The commands but a sample. They refuse nothing: the law asks `check` first, and a program goes through the law.
ghost use Rattle.std.specs.Prelude.{◌≡◌};
ghost use Rattle.record.specs.Commands.{hold_of, put_of, automatic_of, target_of, set_of};

use crate::Loop;

impl Loop {
    pub fn hold(mut self) -> Loop
        ensures { result ≡ hold_of self }
    {
        self.automatic = false;
        self.pending = false;
        self
    }

    pub fn put(mut self, x: i32) -> Loop
        ensures { result ≡ put_of self x }
    {
        self.u = x;
        self
    }

    pub fn start(mut self) -> Loop
        ensures { result ≡ automatic_of self }
    {
        if !self.automatic {
            self.automatic = true;
            self.pending = true;
        }
        self
    }

    pub fn aim(mut self, t: i32, r: i32) -> Loop
        ensures { result ≡ target_of self t r }
    {
        self.target = t;
        self.rate = r;
        self
    }

    pub fn choose(mut self, k: usize) -> Loop
        ensures { result ≡ set_of self k }
    {
        if self.set != k {
            self.set = k;
            self.pending |= self.automatic;
        }
        self
    }
}
