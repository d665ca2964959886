// What the Rust does to an f32 by `as usize`, `min`, `clamp` and `abs`.
ghost use Rattle.std.specs.Prelude.{◌≡◌, ◌^◌, ◌≤◌, true};
ghost use Rattle.std.specs.Float.Ieee.{le, lt, to_unsigned};
ghost use Rattle.ground.specs.F32.{c1, two_to23};
ghost use Rattle.ground.specs.Floats.{whole_part, fraction_of, split_of, min_f, clamp_f, abs_f};

// A whole part, and what is left.
#[derive(Clone, Copy)]
pub struct Parts {
    pub integral: usize,
    pub fractional: f32,
}

// The whole part from the f32's own bits: its 24 digits, shifted by its exponent. std's `truncating_f32_to_u64` takes every float, and longer.
pub fn cut(x: f32) -> u32
    requires least { le c1 x ≡ true }
    requires most { lt x two_to23 ≡ true }
    ensures whole { result ≡ to_unsigned 64 x }
    ensures small { result ≤ 2 ^ 24 }
{
    let bits = x.to_bits();
    let digits = bits % 8388608 + 8388608;
    digits >> (150 - bits / 8388608)
}

// `x as usize`, and 0 from 2^64 on: a cast is proved only where it loses nothing.
#[tactic(auto, using(crate::proofs::Wholes::truncates), unfolding(crate::specs::Floats::whole_part))]
pub fn whole_part(x: f32) -> usize
    ensures { result ≡ whole_part x }
{
    if x >= 1.0 {
        if x < 8388608.0 {
            return cut(x) as usize;
        }
        if x < 18446744073709551616.0 {
            return std::num::truncating_f32_to_u64(x) as usize;
        }
    }
    0
}

// The whole part, and x less it; both are 0 from 2^64 on.
#[tactic(auto, using(crate::proofs::Wholes::splits))]
pub fn split(x: f32) -> Parts
    ensures { result ≡ split_of x }
{
    if x >= 1.0 {
        if x < 8388608.0 {
            let integral = cut(x);
            return Parts {
                integral: integral as usize,
                fractional: x - (integral as f32),
            };
        }
        if x < 18446744073709551616.0 {
            // from 2^23 on an f32 is whole
            return Parts {
                integral: std::num::truncating_f32_to_u64(x) as usize,
                fractional: x - x,
            };
        }
        return Parts {
            integral: 0,
            fractional: 0.0,
        };
    }
    Parts {
        integral: 0,
        fractional: x - 0.0,
    }
}

// `split`, where the whole part was guessed: a right guess is told by two comparisons, and what follows need not wait for x.
#[tactic(auto, using(crate::proofs::Wholes::guesses))]
pub fn split_near(x: f32, guess: usize) -> Parts
    ensures { result ≡ split_of x }
{
    if (1 <= guess) & (guess < 8388608) {
        let low = guess as f32;
        let high = (guess + 1) as f32;
        if (low <= x) & (x < high) {
            return Parts {
                integral: guess,
                fractional: x - low,
            };
        }
    }
    split(x)
}

// The fraction that goes with `whole_part`, which is not `f32::fract`: of a negative x it is x, and 0 from 2^64 on.
#[tactic(auto, unfolding(crate::specs::Floats::fraction_of))]
pub fn fraction(x: f32) -> f32
    ensures { result ≡ fraction_of x }
{
    split(x).fractional
}

// f32::min: the other one where one is a NaN. std's leaves open which zero it gives.
#[tactic(auto, unfolding(crate::specs::Floats::min_f))]
pub fn min(x: f32, y: f32) -> f32
    ensures { result ≡ min_f x y }
{
    if x < y || y.is_nan() { x } else { y }
}

// f32::clamp: a NaN gives a NaN. std's asks for ends in order, and a caller may hand any.
#[tactic(auto, unfolding(crate::specs::Floats::clamp_f))]
pub fn clamp(x: f32, lo: f32, hi: f32) -> f32
    ensures { result ≡ clamp_f x lo hi }
{
    let y = if x < lo { lo } else { x };
    if y > hi { hi } else { y }
}

// f32::abs, by the cases of a float, as the definitions of the string have it; std's clause says it by a sign, and each of them would have to be joined to it.
#[tactic(auto, using(crate::proofs::Signs::without_sign))]
pub fn abs(x: f32) -> f32
    ensures { result ≡ abs_f x }
{
    x.abs()
}
