// How many samples remain until w is at its target. It is read off the record, so that an answer to any command has it, and a
// refusal's too.
ghost use Rattle.std.specs.Prelude.{◌≡◌};
ghost use Rattle.record.specs.Remaining.{remaining_of};

use crate::Loop;

impl Loop {
    // "distance over rate, rounded upward". Nothing is divided by 0: a record with a rate below 1 breaks the state rules.
    pub fn remaining(self) -> u32
        ensures { result ≡ remaining_of self }
    {
        let rate = self.rate;
        if rate <= 0 {
            return 0;
        }
        self.target.abs_diff(self.w).div_ceil(rate.unsigned_abs())
    }
}
