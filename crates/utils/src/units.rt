// Conversion from semitones to frequency ratio.
ghost use Rattle.std.specs.Prelude.{◌≡◌};
ghost use Rattle.utils.specs.Units.{semitones_to_ratio};

#[tactic(auto, using(crate::proofs::Pitches::pitch_indices), unfolding(crate::specs::Units::semitones_to_ratio, crate::specs::Units::high_index, crate::specs::Units::low_index),)]
pub fn semitones_to_ratio(semitones: f32) -> f32
    ensures { result ≡ semitones_to_ratio semitones }
{
    let pitch = semitones + 128.0;
    if pitch >= 1.0 {
        if pitch < 32768.0 {
            // both indices from one cut: 256 times the pitch is exact, and so is what is left of it
            let c = ground::floats::cut(pitch * 256.0);
            return resources::pitch::lut_pitch_ratio_high((c / 256) as usize)
                * resources::pitch::lut_pitch_ratio_low((c % 256) as usize);
        }
    }
    let parts = ground::floats::split(pitch);
    let low = ground::floats::whole_part(parts.fractional * 256.0);
    resources::pitch::lut_pitch_ratio_high(parts.integral)
        * resources::pitch::lut_pitch_ratio_low(low)
}
