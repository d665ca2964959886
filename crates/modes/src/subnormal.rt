// Products that may be subnormal, without the processor's slow path for them.
ghost use Rattle.std.specs.Prelude.{◌≡◌};
ghost use Rattle.ground.specs.F32.{◌⊗◌};
ghost use Rattle.modes.specs.Subnormal.{is_small, zero_of, on_grid};

// Whether products of x may be subnormal.
#[tactic(auto, unfolding(crate::specs::Subnormal::is_small), using(crate::proofs::Constants::minus_small))]
pub fn is_small(x: f32) -> bool
    ensures { result ≡ is_small x }
{
    (x < 1.0e-35) & (x > -1.0e-35)
}

// 0, of p's sign.
#[tactic(auto, unfolding(crate::specs::Subnormal::zero_of), using(crate::proofs::Constants::minus_zero))]
fn zero_of(p: f64) -> f32
    ensures { result ≡ zero_of p }
{
    if p < 0.0 {
        return -0.0;
    }
    0.0
}

// p rounded to a multiple of the least f32, by an anchor of 3 * 2^-98.
#[tactic(auto, unfolding(crate::specs::Subnormal::on_grid))]
fn on_grid(p: f64) -> f64
    ensures { result ≡ on_grid p }
{
    (p + 9.466330862652142e-30) - 9.466330862652142e-30
}

// The product of a and b: where it is subnormal, the product in f64, which is exact, put on the grid.
pub fn product(a: f32, b: f32) -> f32
    ensures { result ≡ a ⊗ b }
{
    if !((a < 1.0e30) & (b < 1.0e30)) {
        return a * b;
    }
    let p = (a as f64) * (b as f64);
    if !((p < 1.1754943508222875e-38) & (p > -1.1754943508222875e-38)) {
        return a * b;
    }
    let w = on_grid(p);
    if w == 0.0 {
        if !((p > 0.0) | (p < 0.0)) {
            return a * b;
        }
        return zero_of(p);
    }
    w as f32
}
