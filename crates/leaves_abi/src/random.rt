// Words, and the floats of a word that was drawn.
ghost use Rattle.std.specs.Prelude.{◌≡◌};
ghost use Rattle.ground.specs.Random.{get_word, get_float, noise_of};
ghost use Rattle.ground.specs.F32.{c0};
ghost use Rattle.leaves_abi.specs.Rows.{number_row, on_fields};
ghost use Rattle.leaves_abi.specs.Leaves.{dust_at};

#[unsafe(no_mangle)]
pub extern "C" fn leaves_get_word(word: u32) -> u32
    ensures { result ≡ get_word word }
{
    ground::random::get_word(word)
}

#[unsafe(no_mangle)]
pub extern "C" fn leaves_get_float(word: u32) -> f32
    ensures { result ≡ get_float word }
{
    ground::random::get_float(word)
}

#[unsafe(no_mangle)]
pub extern "C" fn leaves_noise(word: u32) -> f32
    ensures { result ≡ noise_of word }
{
    ground::random::noise(word)
}

// The word, a slice of 1, moves on.
#[tactic(auto, unfolding(crate::specs::Leaves::dust_at), using(crate::proofs::Held::over_one, crate::proofs::Held::over_other))]
#[unsafe(no_mangle)]
pub extern "C" fn leaves_dust(frequency: f32, word: &mut [u32]) -> f32
    ensures { (result, word.new) ≡ on_fields number_row c0 (dust_at frequency) word.old }
{
    if word.len() != 1 {
        return 0.0;
    }
    let (sample, after) = noise::dust::dust(frequency, word[0]);
    word[0] = after;
    sample
}
