// The cosine oscillator, and the amplitudes that it gives.
ghost use Rattle.std.specs.Prelude.{◌≡◌};
ghost use Rattle.ground.specs.F32.{c0};
ghost use Rattle.utils.specs.CosineOscillator.{osc_init, osc_next};
ghost use Rattle.utils.specs.Amplitudes.{amplitudes_of};
ghost use Rattle.leaves_abi.specs.Rows.{oscillator_row, amplitudes_row, into, on_fields};

use crate::rows::Row;
use utils::cosine_oscillator::CosineOscillator;

#[unsafe(no_mangle)]
pub extern "C" fn leaves_oscillator_init(frequency: f32, oscillator: &mut [f32])
    ensures { oscillator.new ≡ into oscillator_row (osc_init frequency) oscillator.old }
{
    CosineOscillator::init(frequency).put(oscillator);
}

#[tactic(auto, using(crate::proofs::Held::crossed, crate::proofs::Held::over_none))]
#[unsafe(no_mangle)]
pub extern "C" fn leaves_oscillator_next(oscillator: &mut [f32]) -> f32
    ensures { (result, oscillator.new) ≡ on_fields oscillator_row c0 osc_next oscillator.old }
{
    let Some(o) = CosineOscillator::get(oscillator) else {
        return 0.0;
    };
    let (after, out) = o.next();
    after.put(oscillator);
    out
}

#[tactic(auto, unfolding(crate::specs::Rows::on_fields, crate::specs::Rows::amplitudes_row))]
#[unsafe(no_mangle)]
pub extern "C" fn leaves_amplitudes(position: f32, amplitudes: &mut [f32])
    ensures { amplitudes.new ≡ into amplitudes_row (amplitudes_of position) amplitudes.old }
{
    if amplitudes.len() == 24 {
        amplitudes.copy_from_slice(&utils::cosine_oscillator::amplitudes(position));
    }
}
