// Randomly clocked samples.
ghost use Rattle.std.specs.Prelude.{◌≡◌};
ghost use Rattle.ground.specs.Draw.{run, Ran};
ghost use Rattle.noise.specs.Dust.{dust};

// A sample, and the generator's word after it.
#[tactic(auto, unfolding(crate::specs::Dust::dust))]
pub fn dust(frequency: f32, word: u32) -> (f32, u32)
    ensures { run (dust frequency) word ≡ record { value = result.0; word = result.1 } }
{
    let inv_frequency = 1.0 / frequency;
    let drawn = ground::random::get_word(word);
    let u = ground::random::get_float(drawn);
    if u < frequency {
        (u * inv_frequency, drawn)
    } else {
        (0.0, drawn)
    }
}
