// utils/mod.rs: what the devices share.
#![tactic(auto)]

ghost use Rattle.std.specs.Prelude.{◌≡◌};
ghost use Rattle.utils.specs.Utils.{interpolate, one_pole, crossfade};

pub mod cosine_oscillator;
pub mod delay_line;
pub mod filter;
pub mod parameter_interpolator;
pub mod units;

// `interpolate` over the stiffness table of 65, whose size is 64: an index of 1 gives the last entry.
#[tactic(auto, unfolding(crate::specs::Utils::interpolate))]
pub fn interpolate(index: f32) -> f32
    ensures { result ≡ interpolate index }
{
    let scaled = ground::floats::split(ground::floats::clamp(index, 0.0, 1.0) * 64.0);
    let integral = scaled.integral;
    if 64 <= integral {
        return 2.0;
    }
    let a = resources::stiffness::lut_stiffness(integral);
    let b = resources::stiffness::lut_stiffness(integral + 1);
    crossfade(a, b, scaled.fractional)
}

#[tactic(auto, unfolding(crate::specs::Utils::one_pole))]
pub fn one_pole(out: f32, in_: f32, coefficient: f32) -> f32
    ensures { result ≡ one_pole out in_ coefficient }
{
    out + coefficient * (in_ - out)
}

#[tactic(auto, unfolding(crate::specs::Utils::crossfade))]
pub fn crossfade(a: f32, b: f32, fade: f32) -> f32
    ensures { result ≡ crossfade a b fade }
{
    a + (b - a) * fade
}
