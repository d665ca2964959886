// Pseudo random number generator. The word goes in and comes out; nothing is kept here.
ghost use Rattle.std.specs.Prelude.{◌≡◌, ◌-◌, ◌*◌, ◌%◌, ◌^◌, ◌<◌};
ghost use Rattle.std.specs.Float.Ieee.Nearest.{closest};
ghost use Rattle.ground.specs.Random.{get_word, word_float, get_float, noise_of};

// u32::wrapping_mul: 01 'The shape of some places' asks for a multiply of our own beside std's `wrapping_add`.
pub fn wrapping_mul(a: u32, b: u32) -> u32
    ensures { result ≡ (a * b) % 2 ^ 32 }
{
    let wide = u64::from(a) * u64::from(b);
    (wide % 0x1_0000_0000) as u32
}

// The word that a draw moves the generator's word to, and gives.
#[tactic(auto, unfolding(crate::specs::Random::get_word))]
pub fn get_word(word: u32) -> u32
    ensures { result ≡ get_word word }
{
    wrapping_mul(word, 1664525).wrapping_add(1013904223)
}

// The distance of the floats around a word of more than 24 digits, from its leading zeros.
fn unit_of(zeros: u32) -> f32
    requires { zeros < 8 }
    ensures { result ≡ word_float (2 ^ (8 - zeros)) }
{
    // a match: with the cast of 256 >> zeros in its place a draw takes an eighth longer
    match zeros % 8 {
        0 => 256.0,
        1 => 128.0,
        2 => 64.0,
        3 => 32.0,
        4 => 16.0,
        5 => 8.0,
        6 => 4.0,
        _ => 2.0,
    }
}

// Such a word in units, to the nearest whole number, a tie to the even one.
#[tactic(auto, using(crate::proofs::Words::shifted))]
fn digits_of(word: u32, zeros: u32) -> u32
    requires few { zeros < 8 }
    requires room { word * 2 ^ zeros < 2 ^ 32 }
    ensures { result ≡ closest word (2 ^ (8 - zeros)) }
{
    let shifted = u64::from(word << zeros);
    // what is above half of a unit carries, and half of one where the number is odd
    ((shifted + 127 + shifted / 256 % 2) / 256) as u32
}

// `word as f32`: the nearest f32, a tie to the even one. A cast that rounds is not proved: 01 'Drawing noise' has the rounding worked out from the leading
// zeros.
#[tactic(auto, using(crate::proofs::Words::wide, crate::proofs::Words::digits_exact, crate::proofs::Rounding::word_float_lem))]
pub fn word_to_f32(word: u32) -> f32
    ensures { result ≡ word_float word }
{
    if 16777216 <= word {
        let zeros = word.leading_zeros();
        (digits_of(word, zeros) as f32) * unit_of(zeros)
    } else {
        word as f32
    }
}

// get_float, of a word that was drawn: from 0 to 1, 1 included.
#[tactic(auto, unfolding(crate::specs::Random::get_float))]
pub fn get_float(word: u32) -> f32
    ensures { result ≡ get_float word }
{
    word_to_f32(word) / 4294967296.0
}

// `2.0 * get_float() - 1.0`, of a word that was drawn.
#[tactic(auto, unfolding(crate::specs::Random::noise_of))]
pub fn noise(word: u32) -> f32
    ensures { result ≡ noise_of word }
{
    2.0 * get_float(word) - 1.0
}
