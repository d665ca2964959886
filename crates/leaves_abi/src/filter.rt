// Filters. `dirty` chooses the approximation.
ghost use Rattle.std.specs.Prelude.{◌≡◌};
ghost use Rattle.ground.specs.F32.{c0};
ghost use Rattle.utils.specs.Filter.{tan_of, dc_init, dc_process, svf_new, svf_init, svf_set_f_q, svf_process, svf_process_buffer};
ghost use Rattle.leaves_abi.specs.Rows.{dc_row, svf_row, into, changed, on_fields};
ghost use Rattle.leaves_abi.specs.Leaves.{approximation_of};

use crate::rows::Row;
use utils::filter::{DcBlocker, FrequencyApproximation, Svf};

fn approximation(dirty: bool) -> FrequencyApproximation
    ensures { result ≡ approximation_of dirty }
{
    if dirty {
        FrequencyApproximation::Dirty
    } else {
        FrequencyApproximation::Fast
    }
}

#[unsafe(no_mangle)]
pub extern "C" fn leaves_tan(f: f32, dirty: bool) -> f32
    ensures { result ≡ tan_of (approximation_of dirty) f }
{
    utils::filter::tan(f, approximation(dirty))
}

#[unsafe(no_mangle)]
pub extern "C" fn leaves_dc_blocker_init(pole: f32, blocker: &mut [f32])
    ensures { blocker.new ≡ into dc_row (dc_init pole) blocker.old }
{
    DcBlocker::init(pole).put(blocker);
}

#[tactic(auto, using(crate::proofs::Held::over_none))]
#[unsafe(no_mangle)]
pub extern "C" fn leaves_dc_blocker_process(blocker: &mut [f32], in_out: &mut [f32])
    ensures { (in_out.new, blocker.new) ≡ on_fields dc_row in_out.old (λ d. dc_process d in_out.old) blocker.old }
{
    let Some(d) = DcBlocker::get(blocker) else {
        return;
    };
    d.process(in_out).put(blocker);
}

#[unsafe(no_mangle)]
pub extern "C" fn leaves_svf_new(svf: &mut [f32])
    ensures { svf.new ≡ into svf_row svf_new svf.old }
{
    Svf::new().put(svf);
}

#[tactic(auto, using(crate::proofs::Held::stepped, crate::proofs::Held::moved_none))]
#[unsafe(no_mangle)]
pub extern "C" fn leaves_svf_init(svf: &mut [f32])
    ensures { svf.new ≡ changed svf_row svf_init svf.old }
{
    let Some(s) = Svf::get(svf) else {
        return;
    };
    s.init().put(svf);
}

#[tactic(auto, using(crate::proofs::Held::stepped, crate::proofs::Held::moved_none))]
#[unsafe(no_mangle)]
pub extern "C" fn leaves_svf_set_f_q(svf: &mut [f32], f: f32, resonance: f32, dirty: bool)
    ensures { svf.new ≡ changed svf_row (λ s. svf_set_f_q s f resonance (approximation_of dirty)) svf.old }
{
    let Some(s) = Svf::get(svf) else {
        return;
    };
    s.set_f_q(f, resonance, approximation(dirty)).put(svf);
}

#[tactic(auto, using(crate::proofs::Held::crossed, crate::proofs::Held::over_none))]
#[unsafe(no_mangle)]
pub extern "C" fn leaves_svf_process(svf: &mut [f32], in_: f32) -> f32
    ensures { (result, svf.new) ≡ on_fields svf_row c0 (λ s. svf_process s in_) svf.old }
{
    let Some(s) = Svf::get(svf) else {
        return 0.0;
    };
    let (after, out) = s.process(in_);
    after.put(svf);
    out
}

#[tactic(auto, using(crate::proofs::Held::over_none))]
#[unsafe(no_mangle)]
pub extern "C" fn leaves_svf_process_buffer(svf: &mut [f32], in_: &[f32], out: &mut [f32])
    ensures { (out.new, svf.new) ≡ on_fields svf_row out.old (λ s. svf_process_buffer s in_.now out.old) svf.old }
{
    let Some(s) = Svf::get(svf) else {
        return;
    };
    s.process_buffer(in_, out).put(svf);
}
