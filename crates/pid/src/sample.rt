// The arithmetic of one sample, in two halves: `sense` does the law's steps 1 to 3, `act` its steps 4 to 6.
// A replay calls them once a sample on what moves and what stays, and puts the record together once, at its end.
ghost use Rattle.std.specs.Prelude.{◌≡◌};
ghost use Rattle.whole.specs.Numbers.{Within};
ghost use Rattle.settings.specs.Table.{reach};
ghost use Rattle.record.specs.Units.{fine_reach};
ghost use Rattle.pid.specs.Units.{product, excess_most, rounded};
ghost use Rattle.pid.specs.Bounds.{RampOk, FilterOk, SlopeOk, ClampOk, BackOk};
ghost use Rattle.pid.specs.Told.{fixed_told, moving_told, sensed_told};
ghost use Rattle.pid.specs.Sample.{ramped, filtered, derivative, sensed_of, share_of, v_of, room_of, clamped, back_calculated, integrated, ordinary_of, acted_of};

use crate::numbers::{Fixed, Moving, Sensed};
use record::Loop;

// To the nearest, halves away from zero, without a branch: the shift by 16 is a floor, so halves go up, and the shift by 63
// is -1 below zero and 0 elsewhere, so that there they go down.
fn round(x: i64) -> i64
    requires { Within product x }
    ensures { result ≡ rounded x }
{
    (x + 32_768 + (x >> 63)) >> 16
}

fn ramp(w: i64, target: i64, rate: i64) -> i64
    requires { RampOk w target rate }
    ensures { result ≡ ramped w target rate }
{
    if w < target {
        return w + rate.min(target - w);
    }
    w - rate.min(w - target)
}

// x is pv times F.
fn filter(primed: bool, y: i64, x: i64, alpha: i64) -> i64
    requires { FilterOk y x alpha }
    ensures { result ≡ filtered primed y x alpha }
{
    if primed {
        return y + round((x - y) * alpha);
    }
    x
}

fn derive(primed: bool, kd: i64, sign: i64, y: i64, after: i64) -> i64
    requires { SlopeOk kd sign y after }
    ensures { result ≡ derivative primed kd sign y after }
{
    if primed {
        return round(kd * sign * (y - after));
    }
    0
}

// top and bottom are hi × F - P - D and lo × F - P - D.
fn clamp(integral: i64, g: i64, top: i64, bottom: i64) -> i64
    requires { ClampOk integral g top bottom }
    ensures { result ≡ clamped integral g top bottom }
{
    if 0 < g {
        return integral.max((integral + g).min(top));
    }
    if g < 0 {
        return integral.min((integral + g).max(bottom));
    }
    integral
}

// excess is U - v.
fn back_calculate(integral: i64, g: i64, kt: i64, excess: i64) -> i64
    requires { BackOk integral g kt excess }
    ensures { result ≡ back_calculated integral g kt excess }
{
    (integral + g + round(kt * excess)).clamp(-Loop::B, Loop::B)
}

impl Sensed {
    // What a limit, fine, leaves for the integral.
    fn room(self, limit: i64) -> i64
        requires { Within fine_reach limit }
        ensures { result ≡ room_of limit (sensed_told self) }
    {
        limit - self.p - self.d
    }
}

impl Fixed {
    pub fn sense(self, m: Moving, pv: i32) -> Sensed
        requires { Within reach pv }
        ensures { sensed_told result ≡ sensed_of (fixed_told self) (moving_told m) pv }
    {
        let x = i64::from(pv);
        let w = ramp(m.w, self.target, self.rate);
        let y = filter(m.primed, m.y, x * Loop::F, self.alpha);
        let d = derive(m.primed, self.kd, self.sign, m.y, y);
        let e = self.sign * (w - x);
        Sensed {
            w,
            y,
            e,
            p: self.kp * e,
            d,
        }
    }

    // g
    fn share(self, z: Sensed) -> i64
        ensures { result ≡ share_of (fixed_told self) (sensed_told z) }
    {
        self.ki * z.e
    }

    // v
    fn sum(self, m: Moving, z: Sensed) -> i64
        ensures { result ≡ v_of (fixed_told self) (moving_told m) (sensed_told z) }
    {
        z.p + m.integral + self.share(z) + z.d
    }

    // excess is U - v.
    fn integrate(self, m: Moving, z: Sensed, excess: i64) -> i64
        requires { Within excess_most excess }
        ensures { result ≡ integrated (fixed_told self) (moving_told m) (sensed_told z) excess }
    {
        let g = self.share(z);
        if 0 < self.kt {
            return back_calculate(m.integral, g, self.kt, excess);
        }
        clamp(m.integral, g, z.room(self.hi), z.room(self.lo))
    }

    fn ordinary(self, m: Moving, z: Sensed) -> Moving
        ensures { moving_told result ≡ ordinary_of (fixed_told self) (moving_told m) (sensed_told z) }
    {
        let v = self.sum(m, z);
        let at = v.clamp(self.lo, self.hi);
        let u = round(at);
        let integral = self.integrate(m, z, at - v);
        Moving {
            w: z.w,
            u,
            integral,
            y: z.y,
            primed: true,
            pending: false,
        }
    }

    pub fn act(self, m: Moving, z: Sensed) -> Moving
        ensures { moving_told result ≡ acted_of (fixed_told self) (moving_told m) (sensed_told z) }
    {
        if !self.automatic {
            return Moving {
                w: z.w,
                u: m.u,
                integral: m.integral,
                y: z.y,
                primed: true,
                pending: m.pending,
            };
        }
        if m.pending {
            return Moving {
                w: z.w,
                u: m.u,
                integral: m.u * Loop::F - z.p - z.d,
                y: z.y,
                primed: true,
                pending: false,
            };
        }
        self.ordinary(m, z)
    }
}
