// What the devices share, the ratio of semitones, and the tables.
ghost use Rattle.std.specs.Prelude.{◌≡◌};
ghost use Rattle.utils.specs.Units.{semitones_to_ratio};
ghost use Rattle.utils.specs.Utils.{interpolate, one_pole, crossfade};
ghost use Rattle.leaves_abi.specs.Leaves.{table_of};

#[unsafe(no_mangle)]
pub extern "C" fn leaves_interpolate(index: f32) -> f32
    ensures { result ≡ interpolate index }
{
    utils::interpolate(index)
}

#[unsafe(no_mangle)]
pub extern "C" fn leaves_one_pole(out: f32, in_: f32, coefficient: f32) -> f32
    ensures { result ≡ one_pole out in_ coefficient }
{
    utils::one_pole(out, in_, coefficient)
}

#[unsafe(no_mangle)]
pub extern "C" fn leaves_crossfade(a: f32, b: f32, fade: f32) -> f32
    ensures { result ≡ crossfade a b fade }
{
    utils::crossfade(a, b, fade)
}

#[unsafe(no_mangle)]
pub extern "C" fn leaves_ratio(semitones: f32) -> f32
    ensures { result ≡ semitones_to_ratio semitones }
{
    utils::units::semitones_to_ratio(semitones)
}

// What stands at i of a table, by the table's number; 0.0 of another.
#[tactic(auto, unfolding(crate::specs::Leaves::table_of))]
#[unsafe(no_mangle)]
pub extern "C" fn leaves_table(which: u32, i: usize) -> f32
    ensures { result ≡ table_of which i }
{
    match which {
        0 => resources::stiffness::lut_stiffness(i),
        1 => resources::svf::lut_svf_shift(i),
        2 => resources::pitch::lut_pitch_ratio_high(i),
        3 => resources::pitch::lut_pitch_ratio_low(i),
        _ => 0.0,
    }
}
