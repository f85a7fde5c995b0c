// The functions of `port` under their names for C: what the benchmark and the host's tests link.
#![tactic(auto)]

ghost use Rattle.std.specs.Prelude.{◌≡◌, length};
ghost use Rattle.port.specs.Port.{code_of, place_of, out_of, late_code, late_output, late_number, late_out};

// The code of a replay, as `port` has it; the place where a sample is refused is written through `place`.
#[unsafe(no_mangle)]
pub extern "C" fn port_replay(
    values: &[i32],
    set: i32,
    target: i32,
    before: i32,
    held: i32,
    first: u32,
    samples: &[i32],
    out: &mut [i32],
    place: &mut usize,
) -> i32
    ensures value { result ≡ code_of values.now set target before held first samples.now (length out.old) }
    ensures place_after { place.new ≡ place_of values.now set target before held first samples.now (length out.old) }
    ensures out_after { out.new ≡ out_of values.now set target before held first samples.now out.old }
{
    port::port_replay(
        values, set, target, before, held, first, samples, out, place,
    )
}

// The code of a sample after a replay, as `port` has it; its answer's output and number are written through `output` and `told`.
#[unsafe(no_mangle)]
pub extern "C" fn port_late(
    values: &[i32],
    last: u32,
    earlier: &[i32],
    answered: &[i32],
    first: u32,
    samples: &[i32],
    out: &mut [i32],
    number: u32,
    value: i32,
    output: &mut i32,
    told: &mut u32,
) -> i32
    ensures value { result ≡ late_code values.now last earlier.now answered.now first samples.now (length out.old) number value }
    ensures output_after { output.new ≡ late_output values.now last earlier.now answered.now first samples.now (length out.old) number value }
    ensures told_after { told.new ≡ late_number values.now last earlier.now answered.now first samples.now (length out.old) number value }
    ensures out_after { out.new ≡ late_out values.now last earlier.now answered.now first samples.now out.old }
{
    port::port_late(
        values, last, earlier, answered, first, samples, out, number, value, output, told,
    )
}
