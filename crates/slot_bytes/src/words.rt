// A word as four bytes, the lowest first, and a float as the word of its bits.
ghost use Rattle.std.specs.Prelude.{◌≡◌, true, not, [], ◌∷◌, ◌+◌, ◌*◌, ◌≤◌, ◌<◌, length, get_or};
ghost use Rattle.std.specs.Float.Ieee.{is_nan};
ghost use Rattle.slot_bytes.specs.Words.{words_in, put_words, each};
ghost use Rattle.slot_bytes.specs.Layout.{float_in, floats_in, has_no_nan, float_words};

// The k-th word, which written again would change no byte: the library converts four bytes, and this finds them.
// b has any length, for a word is of no slot in particular, so it, `put_word` and `float_stands` ask that the word ends within b.
#[tactic(auto, using(crate::proofs::Little::chunk, crate::proofs::Little::word_at, crate::proofs::Stand::word_stands))]
pub fn word_at(b: &[u8], k: usize) -> u32
    requires { 4 * k + 4 ≤ length b.now }
    ensures { (result ≡ get_or (words_in b.now) k 0) × (put_words k (result ∷ []) b.now ≡ b.now) }
{
    let (words, _) = b.as_chunks::<4>();
    u32::from_le_bytes(words[k])
}

// The k-th word becomes the lowest 32 bits of v: the library converts it, and this puts the four bytes in their place.
#[tactic(auto, using(crate::proofs::Little::stored_row))]
pub fn put_word(b: &mut [u8], k: usize, v: usize)
    requires { 4 * k + 4 ≤ length b.old }
    ensures { b.new ≡ put_words k (v ∷ []) b.old }
{
    let at = 4 * k;
    b[at..at + 4].copy_from_slice(&v.to_le_bytes()[..4]);
}

// Whether the k-th float, written again, would change no byte: it is so of every float but a NaN.
#[tactic(auto, using(crate::proofs::Stand::tested, crate::proofs::Stand::float_stands))]
fn float_stands(b: &[u8], k: usize) -> bool
    requires { 4 * k + 4 ≤ length b.now }
    ensures { (result ≡ not (is_nan (float_in (words_in b.now) k))) × (result ≡ true → put_words k (float_words (float_in (words_in b.now) k)) b.now ≡ b.now) }
{
    word_at(b, k) % 2147483648 <= 2139095040
}

// The same of each of n floats from the k-th on. All are looked at, so that the loop has no branch.
// k and n are no slice of the floats alone: the clause speaks of words by their number in the slot, which a part would count from elsewhere.
pub fn floats_stand(b: &[u8], k: usize, n: usize) -> bool
    requires { 4 * (k + n) ≤ length b.now }
    ensures { (result ≡ has_no_nan (floats_in (words_in b.now) k n))
        × (result ≡ true → put_words k (each float_words (floats_in (words_in b.now) k n)) b.now ≡ b.now) }
{
    let mut stand = true;
    for i in 0..n {
        stand = stand & float_stands(b, k + i);
    }
    stand
}
