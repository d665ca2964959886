// A delay line: a lent slice of any length, and the place that is written next. Where the place is not in the line, a call gives 0 and changes nothing.
ghost use Rattle.std.specs.Prelude.{◌≡◌};
ghost use Rattle.ground.specs.F32.{c0};
ghost use Rattle.utils.specs.DelayLine.{line_reset, line_write, read_with_delay_frac, read_hermite};
ghost use Rattle.leaves_abi.specs.Rows.{number_row, on_fields};
ghost use Rattle.leaves_abi.specs.Leaves.{in_line, allpass_at};

#[tactic(auto, unfolding(crate::specs::Leaves::in_line))]
#[unsafe(no_mangle)]
pub extern "C" fn leaves_line_write(line: &mut [f32], write_ptr: usize, sample: f32) -> usize
    ensures { (result, line.new) ≡ in_line line.old write_ptr (0, line.old) (line_write line.old write_ptr sample) }
{
    if line.len() <= write_ptr {
        return 0;
    }
    utils::delay_line::write(line, write_ptr, sample)
}

#[unsafe(no_mangle)]
pub extern "C" fn leaves_line_reset(line: &mut [f32]) -> usize
    ensures { (result, line.new) ≡ line_reset line.old }
{
    utils::delay_line::reset(line)
}

#[tactic(auto, unfolding(crate::specs::Leaves::in_line))]
#[unsafe(no_mangle)]
pub extern "C" fn leaves_read_with_delay_frac(line: &[f32], write_ptr: usize, delay: f32) -> f32
    ensures { result ≡ in_line line.now write_ptr c0 (read_with_delay_frac line.now write_ptr delay) }
{
    if line.len() <= write_ptr {
        return 0.0;
    }
    utils::delay_line::read_with_delay_frac(line, write_ptr, delay)
}

#[tactic(auto, unfolding(crate::specs::Leaves::in_line))]
#[unsafe(no_mangle)]
pub extern "C" fn leaves_read_hermite(line: &[f32], write_ptr: usize, delay: f32) -> f32
    ensures { result ≡ in_line line.now write_ptr c0 (read_hermite line.now write_ptr delay) }
{
    if line.len() <= write_ptr {
        return 0.0;
    }
    utils::delay_line::read_hermite(line, write_ptr, delay)
}

// The place, a slice of 1, moves on.
#[tactic(auto, unfolding(crate::specs::Leaves::in_line, crate::specs::Leaves::allpass_at), using(crate::proofs::Held::over_one, crate::proofs::Held::over_other, crate::proofs::Held::one_kept),)]
#[unsafe(no_mangle)]
pub extern "C" fn leaves_allpass(
    line: &mut [f32],
    write_ptr: &mut [usize],
    sample: f32,
    delay: usize,
    coefficient: f32,
) -> f32
    ensures { ((result, line.new), write_ptr.new) ≡ on_fields number_row (c0, line.old) (allpass_at line.old sample delay coefficient) write_ptr.old }
{
    if write_ptr.len() != 1 {
        return 0.0;
    }
    let at = write_ptr[0];
    if line.len() <= at {
        return 0.0;
    }
    let after = utils::delay_line::allpass(line, at, sample, delay, coefficient);
    write_ptr[0] = after.write_ptr;
    after.out
}
