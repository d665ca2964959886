// What the Rust does to an f32.
ghost use Rattle.std.specs.Prelude.{◌≡◌};
ghost use Rattle.ground.specs.Floats.{whole_part, fraction_of, min_f, clamp_f, abs_f};

#[unsafe(no_mangle)]
pub extern "C" fn leaves_whole_part(x: f32) -> usize
    ensures { result ≡ whole_part x }
{
    ground::floats::whole_part(x)
}

#[unsafe(no_mangle)]
pub extern "C" fn leaves_fraction(x: f32) -> f32
    ensures { result ≡ fraction_of x }
{
    ground::floats::fraction(x)
}

#[unsafe(no_mangle)]
pub extern "C" fn leaves_min(x: f32, y: f32) -> f32
    ensures { result ≡ min_f x y }
{
    ground::floats::min(x, y)
}

#[unsafe(no_mangle)]
pub extern "C" fn leaves_clamp(x: f32, lo: f32, hi: f32) -> f32
    ensures { result ≡ clamp_f x lo hi }
{
    ground::floats::clamp(x, lo, hi)
}

#[unsafe(no_mangle)]
pub extern "C" fn leaves_abs(x: f32) -> f32
    ensures { result ≡ abs_f x }
{
    ground::floats::abs(x)
}
