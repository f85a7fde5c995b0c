// The numbers of a sample, and the bounds that each of them keeps, so that all arithmetic fits in 64 bits.
ghost use Rattle.std.specs.Prelude.{◌≤◌, ◌<ℤ◌, ◌≤ℤ◌, pos};
ghost use Rattle.whole.specs.Numbers.{size};
ghost use Rattle.settings.specs.Table.{reach, fastest, gain, share};
ghost use Rattle.record.specs.Units.{B, fine_reach};
ghost use Rattle.pid.specs.Units.{part};

// What stays while samples come: the sign s, the limits times F, target, rate, mode, and the gain set in force. Flags are the record's.
#[derive(Clone, Copy)]
pub struct Fixed {
    pub sign: i64,
    pub lo: i64,
    pub hi: i64,
    pub target: i64,
    pub rate: i64,
    pub automatic: bool,
    pub kp: i64,
    pub ki: i64,
    pub kd: i64,
    pub alpha: i64,
    pub kt: i64,
    ghost sign_in: { size sign ≤ 1 },
    ghost lo_in: { size lo ≤ fine_reach },
    ghost hi_in: { size hi ≤ fine_reach },
    ghost apart: { lo <ℤ hi },
    ghost target_in: { size target ≤ reach },
    ghost rate_in: { size rate ≤ fastest },
    ghost moves: { pos 1 ≤ℤ rate },
    ghost kp_in: { size kp ≤ gain },
    ghost ki_in: { size ki ≤ gain },
    ghost kd_in: { size kd ≤ gain },
    ghost alpha_in: { size alpha ≤ share },
    ghost follows: { pos 1 ≤ℤ alpha },
    ghost kt_in: { size kt ≤ share },
}

// What a sample moves. Flags are the record's.
#[derive(Clone, Copy)]
pub struct Moving {
    pub w: i64,
    pub u: i64,
    pub integral: i64,
    pub y: i64,
    pub primed: bool,
    pub pending: bool,
    ghost w_in: { size w ≤ reach },
    ghost u_in: { size u ≤ reach },
    ghost integral_in: { size integral ≤ B },
    ghost y_in: { size y ≤ fine_reach },
}

// What the first half finds: w and y as they become, the error e, P and D. "Largest P, D and g: 8,388,608,000,000 each"
#[derive(Clone, Copy)]
pub struct Sensed {
    pub w: i64,
    pub y: i64,
    pub e: i64,
    pub p: i64,
    pub d: i64,
    ghost w_in: { size w ≤ reach },
    ghost y_in: { size y ≤ fine_reach },
    ghost e_in: { size e ≤ fastest },
    ghost p_in: { size p ≤ part },
    ghost d_in: { size d ≤ part },
}
