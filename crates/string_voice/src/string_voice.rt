// Extended Karplus-Strong, with all the niceties from Rings.
ghost use Rattle.std.specs.Prelude.{◌≡◌, cond, ◌≤◌, ◌-◌, ◌^◌, min, length};
ghost use Rattle.ground.specs.Draw.{run, Ran};
ghost use Rattle.waveguide.specs.Kept.{Good};
ghost use Rattle.noise.specs.Excitation.{Alike};
ghost use Rattle.noise.specs.Buffers.{IsAlike, IsSame};
ghost use Rattle.string_voice.specs.StringVoice.{voice_new, voice_init, voice_reset, cutoff_for, strike, burst, excitation, excitation_words};
ghost use Rattle.string_voice.specs.StringVoice.{excitation_counts, Excited, excite_of, amount, Sounded, sound_of, After, render_of};
ghost use Rattle.string_voice.specs.OneLoop.{Framed, frames_of, Renders};

use noise::ahead::Passed;
use noise::buffers::Buffers;
use noise::excitation::{Counts, Knobs, Rendered};
use noise::settling::settle;
use utils::filter::{FrequencyApproximation, Svf};
use waveguide::string::{Block, Played, String, Underway};

// A voice. Its lines are lent: the string line of 1,024 numbers and the stretch line of 256 behind it. That its string's places lie in them (`Good`) is asked
// by each call that sounds it: a caller's bank may hold any places.
#[derive(Clone, Copy)]
pub struct StringVoice {
    pub excitation_filter: Svf,
    pub string: String,
    pub remaining_noise_samples: usize,
}

// The excitation filter and the string after a block, the generator's word, and how many words the string drew.
#[derive(Clone, Copy)]
pub struct Strung {
    pub filter: Svf,
    pub string: String,
    pub word: u32,
    pub drawn: usize,
}

// The cutoff of the excitation filter. The modal voice's has other numbers in three places, and its excitation a strike: one function of both would be told
// which at each.
#[tactic(auto, unfolding(crate::specs::StringVoice::cutoff_for, crate::specs::StringVoice::exciter_semitones))]
fn cutoff_for(k: Knobs) -> f32
    ensures { result ≡ cutoff_for k }
{
    let brightness = noise::excitation::raise(k.accent, k.brightness);
    let ratio = utils::units::semitones_to_ratio((brightness * (2.0 - brightness) - 0.5) * 72.0);
    ground::floats::min(4.0 * k.f0 * ratio, 0.499)
}

// Noise in the first m frames, silence behind.
fn fill_noise(m: usize, temp: &mut [f32], word: u32) -> u32
    requires { m ≤ length temp.old }
    ensures { run (burst m temp.old) word ≡ record { value = temp.new; word = result } }
{
    utils::delay_line::reset(temp);
    let mut w = word;
    // by index: in a loop over a part of the buffer no invariant can name the whole
    for i in 0..m {
        w = ground::random::get_word(w);
        temp[i] = ground::random::noise(w);
    }
    w
}

// Dust where the voice is sustained; else what is left of the noise, and silence behind.
#[tactic(auto, unfolding(crate::specs::StringVoice::excitation))]
fn fill_excitation(k: Knobs, left: usize, temp: &mut [f32], word: u32) -> u32
    ensures { run (excitation k.sustain k left temp.old) word ≡ record { value = temp.new; word = result } }
{
    if k.sustain {
        let f = noise::excitation::dust_frequency(k.brightness);
        noise::excitation::fill_dust(f, 8.0 - f * 6.0, k.accent, temp, word)
    } else {
        fill_noise(left.min(temp.len()), temp, word)
    }
}

// What is left of the noise after a block of n. The knob `sustain` comes with the block: neither this nor `counts_of` can be told it before the program runs.
fn noise_left(sustain: bool, left: usize, n: usize) -> usize
    ensures { result ≡ cond sustain left (left - min left n) }
{
    if sustain { left } else { left - left.min(n) }
}

// The words of the excitation of n frames, where so much is left of the noise.
fn counts_of(sustain: bool, left: usize, n: usize) -> Counts
    ensures { result ≡ excitation_counts sustain (excitation_words sustain left n) }
{
    Counts {
        burst: if sustain { 0 } else { left.min(n) },
        dust: if sustain { n } else { 0 },
        dispersion: 0,
    }
}

// Both halves' loops as one, by the frame's index, since each frame stands in four buffers. The excitation filter is a frame ahead of the string, so that
// neither waits for the other.
fn sound_frames(
    lines: &mut [f32],
    s: String,
    word: u32,
    block: Block,
    f: Svf,
    b: &mut Buffers,
) -> Strung
    requires { Good (s, lines.old) × (length b.old.out.now ≤ 2 ^ 24) × IsAlike b.old }
    ensures all { run (frames_of block.shape block.params f (s, lines.old) b.old.temp.now b.old.temp_2.now b.old.out.now b.old.aux.now) word ≡ record {
      value = record {
        filter = result.filter;
        string = result.string;
        lines = lines.new;
        temp2 = b.new.temp_2.now;
        out = b.new.out.now;
        aux = b.new.aux.now;
        drawn = result.drawn;
      };
      word = result.word;
    } }
    ensures temp { b.new.temp.now ≡ b.old.temp.now }
    ensures same { IsSame b.new b.old }
{
    // each by itself: a pattern that takes `b` apart leaves two `&mut` before each buffer, which the proof of a call that is lent one does not see through
    let temp = &mut *b.temp;
    let temp_2 = &mut *b.temp_2;
    let out = &mut *b.out;
    let aux = &mut *b.aux;
    let mut u = block.begin(s, word);
    let mut ahead = Passed::first_compared(f, temp);
    for i in 0..temp.len() {
        let x = ahead.out;
        temp_2[i] = x;
        aux[i] += x;
        u = block.advance(lines, u, x);
        ahead = ahead.on_compared(temp, i);
        out[i] = waveguide::string::mix(out[i], u.string);
    }
    let Underway {
        string,
        word,
        drawn,
        ..
    } = u;
    Strung {
        filter: ahead.filter,
        string,
        word,
        drawn,
    }
}

#[tactic(auto, unfolding(crate::specs::StringVoice::amount))]
fn amount_for(structure: f32) -> f32
    ensures { result ≡ amount structure }
{
    if structure < 0.24 {
        (structure - 0.24) * 4.166
    } else if structure > 0.26 {
        (structure - 0.26) * 1.35135
    } else {
        0.0
    }
}

impl StringVoice {
    #[tactic(auto, unfolding(crate::specs::StringVoice::voice_new))]
    pub fn new() -> StringVoice
        ensures { result ≡ voice_new }
    {
        StringVoice {
            excitation_filter: Svf::new(),
            string: String::new(),
            remaining_noise_samples: 0,
        }
    }

    #[tactic(auto, unfolding(crate::specs::StringVoice::voice_init))]
    pub fn init(self, sample_rate_hz: f32, lines: &mut [f32]) -> StringVoice
        ensures { (result, lines.new) ≡ voice_init self sample_rate_hz lines.old }
    {
        let string = self.string.init(sample_rate_hz, lines);
        StringVoice {
            excitation_filter: self.excitation_filter.init(),
            string,
            remaining_noise_samples: 0,
        }
    }

    #[tactic(auto, unfolding(crate::specs::StringVoice::voice_reset))]
    pub fn reset(self, lines: &mut [f32]) -> StringVoice
        ensures { (result, lines.new) ≡ voice_reset self lines.old }
    {
        let string = self.string.reset(lines);
        StringVoice { string, ..self }
    }

    // With trigger or sustain the noise begins anew and the filter is set. It is in line, so that `render` works out no more of it than the noise.
    #[inline(always)]
    #[tactic(auto, unfolding(crate::specs::StringVoice::strike))]
    fn strike(self, k: Knobs) -> StringVoice
        ensures { result ≡ strike k self }
    {
        if !(k.trigger | k.sustain) {
            return self;
        }
        let filter = self.excitation_filter;
        let q = if k.sustain { 1.0 } else { 0.5 };
        StringVoice {
            excitation_filter: filter.set_f_q(cutoff_for(k), q, FrequencyApproximation::Dirty),
            remaining_noise_samples: ground::floats::whole_part(1.0 / k.f0),
            ..self
        }
    }

    // The first half of `render`: the excitation, its filter, and the mix into aux.
    pub fn excite(
        self,
        k: Knobs,
        temp: &mut [f32],
        temp_2: &mut [f32],
        aux: &mut [f32],
        word: u32,
    ) -> Rendered<StringVoice>
        ensures { run (excite_of k self temp.old temp_2.old aux.old) word ≡ record {
          value = record { voice = result.voice; temp = temp.new; temp2 = temp_2.new; aux = aux.new; counts = result.counts };
          word = result.word;
        } }
    {
        let struck = self.strike(k);
        let before = struck.remaining_noise_samples;
        let left = noise_left(k.sustain, before, temp.len());
        let counts = counts_of(k.sustain, before, temp.len());
        let drawn = fill_excitation(k, before, temp, word);
        let fed = counts.burst + counts.dust;
        let excitation_filter = settle(struck.excitation_filter, temp, fed, temp_2);
        noise::excitation::add_into(temp_2, aux);
        let voice = StringVoice {
            excitation_filter,
            remaining_noise_samples: left,
            ..struck
        };
        Rendered {
            voice,
            word: drawn,
            counts,
        }
    }

    // The second half: the string from temp_2 into out. At most 2^24 frames, which an f32 counts exactly: a lent buffer has no type that says so.
    pub fn sound(
        self,
        k: Knobs,
        lines: &mut [f32],
        temp_2: &[f32],
        out: &mut [f32],
        word: u32,
    ) -> Rendered<StringVoice>
        requires { Good (self.string, lines.old) × (length out.old ≤ 2 ^ 24) }
        ensures { run (sound_of k self lines.old temp_2.now out.old) word ≡ record {
          value = record { voice = result.voice; lines = lines.new; out = out.new; counts = result.counts };
          word = result.word;
        } }
    {
        let shape = waveguide::string::non_linearity(amount_for(k.structure));
        let brightness = noise::excitation::raise(k.accent, k.brightness);
        let damping = noise::excitation::raise(k.accent, k.damping);
        let Played {
            string,
            word,
            drawn,
        } = self
            .string
            .process(lines, word, shape, k.f0, brightness, damping, temp_2, out);
        let voice = StringVoice { string, ..self };
        let counts = Counts {
            burst: 0,
            dust: 0,
            dispersion: drawn,
        };
        Rendered {
            voice,
            word,
            counts,
        }
    }

    // Both halves, their loops as one.
    fn render_in_one(
        self,
        k: Knobs,
        lines: &mut [f32],
        b: &mut Buffers,
        word: u32,
    ) -> Rendered<StringVoice>
        requires { Good (self.string, lines.old) × (length b.old.out.now ≤ 2 ^ 24) × IsAlike b.old }
        ensures { Renders k self lines.old b.old word result lines.new b.new }
    {
        let struck = self.strike(k);
        let left = struck.remaining_noise_samples;
        let left_after = noise_left(k.sustain, left, b.temp.len());
        let e = counts_of(k.sustain, left, b.temp.len());
        let excited = fill_excitation(k, left, b.temp, word);
        let amount = amount_for(k.structure);
        let shape = waveguide::string::non_linearity(amount);
        let bright = noise::excitation::raise(k.accent, k.brightness);
        let damped = noise::excitation::raise(k.accent, k.damping);
        let p = struck
            .string
            .prepare(shape, k.f0, bright, damped, b.out.len());
        let filter = struck.excitation_filter;
        let Strung {
            filter,
            string,
            word,
            drawn,
        } = sound_frames(lines, p.string, excited, p.block, filter, b);
        let voice = StringVoice {
            excitation_filter: filter,
            string,
            remaining_noise_samples: left_after,
        };
        let counts = Counts {
            dispersion: drawn,
            ..e
        };
        Rendered {
            voice,
            word,
            counts,
        }
    }

    // Both halves, one after the other.
    fn render_apart(
        self,
        k: Knobs,
        lines: &mut [f32],
        b: &mut Buffers,
        word: u32,
    ) -> Rendered<StringVoice>
        requires { Good (self.string, lines.old) × (length b.old.out.now ≤ 2 ^ 24) × IsAlike b.old }
        ensures { Renders k self lines.old b.old word result lines.new b.new }
    {
        let temp = &mut *b.temp;
        let temp_2 = &mut *b.temp_2;
        let out = &mut *b.out;
        let aux = &mut *b.aux;
        let e = self.excite(k, temp, temp_2, aux, word);
        let s = e.voice.sound(k, lines, temp_2, out, e.word);
        let counts = Counts {
            dispersion: s.counts.dispersion,
            ..e.counts
        };
        Rendered { counts, ..s }
    }

    // Both halves: their loops as one where the filter is fed in more than half of the frames, else one after the other.
    pub fn render(
        self,
        k: Knobs,
        lines: &mut [f32],
        b: &mut Buffers,
        word: u32,
    ) -> Rendered<StringVoice>
        requires { Good (self.string, lines.old) × (length b.old.out.now ≤ 2 ^ 24) × IsAlike b.old }
        ensures all { run (render_of k self lines.old b.old.temp.now b.old.temp_2.now b.old.out.now b.old.aux.now) word ≡ record {
          value = record {
            voice = result.voice;
            lines = lines.new;
            temp = b.new.temp.now;
            temp2 = b.new.temp_2.now;
            out = b.new.out.now;
            aux = b.new.aux.now;
            counts = result.counts;
          };
          word = result.word;
        } }
        ensures same { IsSame b.new b.old }
    {
        let left = self.strike(k).remaining_noise_samples;
        // dust or noise keeps the filter busy; behind it the filter settles, which a loop by itself can go around
        if k.sustain | (left > b.temp.len() / 2) {
            self.render_in_one(k, lines, b, word)
        } else {
            self.render_apart(k, lines, b, word)
        }
    }
}
