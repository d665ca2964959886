// A float as the word of its bits.
ghost use Rattle.std.specs.Prelude.{◌≡◌, true, from_bits, to_bits};
ghost use Rattle.std.specs.Float.{binary32};
ghost use Rattle.ground.specs.Floats.{same_float};

// The float of a pattern, the NaN of each NaN's, which `f32::from_bits` does not take. It has a contract in this repository's words, which two must-fail edits
// try.
pub fn float_of(pattern: u32) -> f32
    ensures { result ≡ from_bits binary32 pattern }
{
    std::num::f32_from_bits_with_nan(pattern)
}

// The pattern of a float, 0x7fc00000 of the NaN, which `to_bits` does not take; for the same reason.
pub fn pattern_of(x: f32) -> u32
    ensures { result ≡ to_bits binary32 x }
{
    std::num::f32_to_bits_with_nan(x)
}

// Whether x and y are one float: `==` takes zeros of both signs for one, and `to_bits` takes no NaN.
#[tactic(auto, using(crate::proofs::Nans::equal_no_nan, crate::proofs::Nans::same_bits))]
pub fn same(x: f32, y: f32) -> bool
    ensures { (result ≡ same_float x y) × (result ≡ true → x ≡ y) }
{
    x == y && x.to_bits() == y.to_bits()
}
