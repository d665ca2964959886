// A thing that stands in bytes as words, from the k-th on, and many of one kind in a row.
ghost use Rattle.std.specs.Prelude.{◌≡◌, refl, ℕ, List, ◌++◌, ◌+◌, ◌*◌, ◌≤◌, ◌<◌, length};
ghost use Rattle.ground.specs.Frames.{tab};
ghost use Rattle.slot_bytes.specs.Words.{words_in, put_words, each};
ghost use Rattle.slot_bytes.specs.Layout.{F32, SvfF32, DcF32, ModeF32, BatchF32, All, float_in, svf_in, dc_in, mode_in, batch_in, float_again, float_words};
ghost use Rattle.slot_bytes.specs.Layout.{svf_words, dc_words, mode_words, batch_words};

use crate::words::{put_word, word_at};
use modes::resonator::{Batch, ResonatorSvf};
use utils::filter::{DcBlocker, Svf};

pub trait Record: Copy {
    // How many words it has.
    const WORDS: usize;

    ghost WORDS: { ℕ };

    // What the words from the k-th on are read as.
    ghost from_words: { List ℕ → ℕ → Self };

    ghost to_words: { Self → List ℕ };

    // Each float of it is an f32.
    ghost is_f32: { Self → Type 0 };

    fn read(b: &[u8], k: usize) -> Self
        requires { 4 * (k + WORDS) ≤ length b.now }
        ensures { result ≡ from_words (words_in b.now) k };

    fn write(self, b: &mut [u8], k: usize)
        requires { 4 * (k + WORDS) ≤ length b.old }
        ensures { (b.new ≡ put_words k (to_words self) b.old) × is_f32 self };

    ghost sized: { (x : Self) → length (to_words x) ≡ WORDS };

    // What is read of the words written is the thing again.
    ghost undone: { (x : Self) (ws : List ℕ) → is_f32 x → from_words (to_words x ++ ws) 0 ≡ x };
}

impl Record for f32 {
    const WORDS: usize = 1;

    ghost WORDS = { 1 };

    ghost from_words = { float_in };

    ghost to_words = { float_words };

    ghost is_f32 = { F32 };

    fn read(b: &[u8], k: usize) -> f32 {
        ground::bits::float_of(word_at(b, k))
    }

    #[tactic(auto, unfolding(crate::specs::Layout::float_words))]
    fn write(self, b: &mut [u8], k: usize) {
        put_word(b, k, ground::bits::pattern_of(self) as usize);
    }

    ghost sized = { λ x. unfold float_words in refl };

    ghost undone = { λ x ws f. unfold float_words in float_again x f };
}

impl Record for Svf {
    const WORDS: usize = 5;

    ghost WORDS = { 5 };

    ghost from_words = { svf_in };

    ghost to_words = { svf_words };

    ghost is_f32 = { SvfF32 };

    #[tactic(auto, unfolding(crate::specs::Layout::svf_in))]
    fn read(b: &[u8], k: usize) -> Svf {
        Svf {
            g: f32::read(b, k),
            r: f32::read(b, k + 1),
            h: f32::read(b, k + 2),
            state_1: f32::read(b, k + 3),
            state_2: f32::read(b, k + 4),
        }
    }

    fn write(self, b: &mut [u8], k: usize) {
        self.g.write(b, k);
        self.r.write(b, k + 1);
        self.h.write(b, k + 2);
        self.state_1.write(b, k + 3);
        self.state_2.write(b, k + 4);
    }

    ghost sized = { λ x. unfold svf_words in refl };

    ghost undone = { λ s ws f. unfold svf_in svf_words in λ i. record {
      g = float_again s.g f.0 i;
      r = float_again s.r f.1 i;
      h = float_again s.h f.2 i;
      state_1 = float_again s.state_1 f.3 i;
      state_2 = float_again s.state_2 f.4 i;
    } };
}

impl Record for DcBlocker {
    const WORDS: usize = 3;

    ghost WORDS = { 3 };

    ghost from_words = { dc_in };

    ghost to_words = { dc_words };

    ghost is_f32 = { DcF32 };

    #[tactic(auto, unfolding(crate::specs::Layout::dc_in))]
    fn read(b: &[u8], k: usize) -> DcBlocker {
        DcBlocker {
            pole: f32::read(b, k),
            x: f32::read(b, k + 1),
            y: f32::read(b, k + 2),
        }
    }

    fn write(self, b: &mut [u8], k: usize) {
        self.pole.write(b, k);
        self.x.write(b, k + 1);
        self.y.write(b, k + 2);
    }

    ghost sized = { λ x. unfold dc_words in refl };

    ghost undone = { λ d ws f. unfold dc_in dc_words in λ i. record {
      pole = float_again d.pole f.0 i;
      x = float_again d.x f.1 i;
      y = float_again d.y f.2 i;
    } };
}

impl Record for ResonatorSvf {
    const WORDS: usize = 2;

    ghost WORDS = { 2 };

    ghost from_words = { mode_in };

    ghost to_words = { mode_words };

    ghost is_f32 = { ModeF32 };

    #[tactic(auto, unfolding(crate::specs::Layout::mode_in))]
    fn read(b: &[u8], k: usize) -> ResonatorSvf {
        ResonatorSvf {
            state_1: f32::read(b, k),
            state_2: f32::read(b, k + 1),
        }
    }

    fn write(self, b: &mut [u8], k: usize) {
        self.state_1.write(b, k);
        self.state_2.write(b, k + 1);
    }

    ghost sized = { λ x. unfold mode_words in refl };

    ghost undone = { λ m ws f. unfold mode_in mode_words in λ i. record {
      state_1 = float_again m.state_1 f.0 i;
      state_2 = float_again m.state_2 f.1 i;
    } };
}

impl Record for Batch {
    const WORDS: usize = 8;

    ghost WORDS = { 8 };

    ghost from_words = { batch_in };

    ghost to_words = { batch_words };

    ghost is_f32 = { BatchF32 };

    #[tactic(auto, unfolding(crate::specs::Layout::batch_in))]
    fn read(b: &[u8], k: usize) -> Batch {
        Batch {
            mode_0: ResonatorSvf::read(b, k),
            mode_1: ResonatorSvf::read(b, k + 2),
            mode_2: ResonatorSvf::read(b, k + 4),
            mode_3: ResonatorSvf::read(b, k + 6),
        }
    }

    fn write(self, b: &mut [u8], k: usize) {
        self.mode_0.write(b, k);
        self.mode_1.write(b, k + 2);
        self.mode_2.write(b, k + 4);
        self.mode_3.write(b, k + 6);
    }

    ghost sized = { λ x. unfold batch_words mode_words in refl };

    ghost undone = { λ b ws f. unfold batch_in batch_words mode_in mode_words BatchF32 in λ i. record {
      mode_0 = record { state_1 = float_again b.mode_0.state_1 f.0.0 i; state_2 = float_again b.mode_0.state_2 f.0.1 i };
      mode_1 = record { state_1 = float_again b.mode_1.state_1 f.1.0 i; state_2 = float_again b.mode_1.state_2 f.1.1 i };
      mode_2 = record { state_1 = float_again b.mode_2.state_1 f.2.0 i; state_2 = float_again b.mode_2.state_2 f.2.1 i };
      mode_3 = record { state_1 = float_again b.mode_3.state_1 f.3.0 i; state_2 = float_again b.mode_3.state_2 f.3.1 i };
    } };
}

#[tactic(auto, using(ground::proofs::Tab::stored_turn, ground::proofs::Tab::stored_end))]
pub fn read_all<T: Record, const N: usize>(b: &[u8], k: usize) -> [T; N]
    requires some { 0 < N }
    requires room { 4 * (k + T.WORDS * N) ≤ length b.now }
    ensures { result ≡ tab N (λ i. T.from_words (words_in b.now) (k + T.WORDS * i)) }
{
    let mut a = [T::read(b, k); N];
    // by index: an element stands T::WORDS on for each before it
    for i in 0..N {
        a[i] = T::read(b, k + T::WORDS * i);
    }
    a
}

#[tactic(auto, using(crate::proofs::Little::written_end, crate::proofs::Little::each_all))]
pub fn write_all<T: Record, const N: usize>(a: [T; N], b: &mut [u8], k: usize)
    requires { 4 * (k + T.WORDS * N) ≤ length b.old }
    ensures { (b.new ≡ put_words k (each T.to_words a) b.old) × All T.is_f32 N a }
{
    // by index: an element stands T::WORDS on for each before it
    for i in 0..N {
        a[i].write(b, k + T::WORDS * i);
    }
}
