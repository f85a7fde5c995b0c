// The plain law, one command at a time. It knows no numbers.
ghost use Rattle.std.specs.Prelude.{◌≡◌, true, ◌<◌};
ghost use Rattle.whole.specs.Numbers.{plus};
ghost use Rattle.settings.specs.Table.{sets, in_reach};
ghost use Rattle.settings.specs.Settings.{gains_at};
ghost use Rattle.record.specs.Record.{valid};
ghost use Rattle.record.specs.Refusals.{refusal_of};
ghost use Rattle.pid.specs.Told.{fixed_told, moving_told};
ghost use Rattle.pid.specs.Law.{sign_of, fixed_of, moving_of, with_moving, sample_of, step_of, law_of, obeyed_told};

use crate::numbers::{Fixed, Moving};
use command::Command;
use record::{After, Loop};
use refusal::Refusal;
use settings::Gains;
use window::Window;

fn sign(action: i32) -> i64
    ensures { result ≡ sign_of action }
{
    if action == 0 { 1 } else { -1 }
}

fn gains(l: Loop) -> Gains
    requires { l.set < sets }
    ensures { result ≡ gains_at l.settings.gains l.set }
{
    l.settings.gains[l.set]
}

pub(crate) fn fixed(l: Loop) -> Fixed
    requires { valid l ≡ true }
    ensures { fixed_told result ≡ fixed_of l }
{
    let g = gains(l);
    Fixed {
        sign: sign(l.settings.action),
        lo: i64::from(l.settings.lo) * Loop::F,
        hi: i64::from(l.settings.hi) * Loop::F,
        target: i64::from(l.target),
        rate: i64::from(l.rate),
        automatic: l.automatic,
        kp: i64::from(g.kp),
        ki: i64::from(g.ki),
        kd: i64::from(g.kd),
        alpha: i64::from(g.alpha),
        kt: i64::from(g.kt),
    }
}

pub(crate) fn moving(l: Loop) -> Moving
    requires { valid l ≡ true }
    ensures { moving_told result ≡ moving_of l }
{
    Moving {
        w: i64::from(l.w),
        u: i64::from(l.u),
        integral: l.integral,
        y: l.y,
        primed: l.primed,
        pending: l.pending,
    }
}

pub(crate) fn with_moving(mut l: Loop, window: Window, raw: i32, m: Moving) -> Loop
    ensures { result ≡ with_moving l window raw (moving_told m) }
{
    l.w = m.w as i32;
    l.u = m.u as i32;
    l.integral = m.integral;
    l.y = m.y;
    l.primed = m.primed;
    l.pending = m.pending;
    l.window = window;
    l.raw = raw;
    l
}

// Over how many temperatures the mean goes.
pub(crate) fn mean(l: Loop) -> usize
    ensures { result ≡ plus l.settings.mean }
{
    whole::plus(l.settings.mean)
}

fn sample(l: Loop, pv: i32) -> Loop
    requires { (valid l ≡ true) × (in_reach pv ≡ true) }
    ensures { result ≡ sample_of l pv }
{
    let window = l.window.taken(pv);
    let f = fixed(l);
    let m = moving(l);
    let z = f.sense(m, window.mean(mean(l)));
    with_moving(l, window, pv, f.act(m, z))
}

fn step(l: Loop, c: Command) -> Loop
    requires { (valid l ≡ true) × (refusal_of l c ≡ 0) }
    ensures { result ≡ step_of l c }
{
    match c {
        Command::Sample(pv) => sample(l, pv),
        Command::Hold => l.hold(),
        Command::Put(x) => l.put(x),
        Command::Automatic => l.start(),
        Command::Target(t, r) => l.aim(t, r),
        Command::Set(k) => l.choose(whole::plus(k)),
    }
}

// One command under the plain law: 10, then what is wrong with its content, else the step.
pub fn obey(l: Loop, c: Command) -> After<Loop>
    ensures { obeyed_told result ≡ law_of l c }
{
    if !l.is_valid() {
        return After {
            outcome: Err(Refusal::BrokenRecord),
            state: l,
        };
    }
    if let Err(refusal) = l.check(c) {
        return After {
            outcome: Err(refusal),
            state: l,
        };
    }
    After {
        outcome: Ok(()),
        state: step(l, c),
    }
}
