// Linear interpolation of a parameter.
ghost use Rattle.std.specs.Prelude.{◌≡◌};
ghost use Rattle.utils.specs.ParameterInterpolator.{interpolator_next};
ghost use Rattle.leaves_abi.specs.Rows.{interpolator_row, changed};
ghost use Rattle.leaves_abi.specs.Leaves.{interpolator_at};

use crate::rows::Row;
use utils::parameter_interpolator::ParameterInterpolator;

// Where the size is above 2^24, whose cast is not proved, nothing changes.
#[tactic(auto, unfolding(crate::specs::Leaves::interpolator_at))]
#[unsafe(no_mangle)]
pub extern "C" fn leaves_interpolator_new(
    state: f32,
    new_value: f32,
    size: usize,
    interpolator: &mut [f32],
)
    ensures { interpolator.new ≡ interpolator_at state new_value size interpolator.old }
{
    if 16777216 < size {
        return;
    }
    ParameterInterpolator::new(state, new_value, size).put(interpolator);
}

#[tactic(auto, using(crate::proofs::Held::stepped, crate::proofs::Held::moved_none))]
#[unsafe(no_mangle)]
pub extern "C" fn leaves_interpolator_next(interpolator: &mut [f32])
    ensures { interpolator.new ≡ changed interpolator_row interpolator_next interpolator.old }
{
    let Some(p) = ParameterInterpolator::get(interpolator) else {
        return;
    };
    p.next().put(interpolator);
}
