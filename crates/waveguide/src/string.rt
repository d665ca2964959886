// Comb filter / KS string. "Lite" version of the implementation used in Rings.
ghost use Rattle.std.specs.Prelude.{◌≡◌, ◌+◌, ◌≤◌, ◌<◌, ◌^◌, length};
ghost use Rattle.ground.specs.Draw.{run, Ran, counted};
ghost use Rattle.ground.specs.Frames.{frames};
ghost use Rattle.waveguide.specs.String.{string_new, string_reset, string_init, non_linearity, amount_of, delay_of, snap, damping_of, compensation_of};
ghost use Rattle.waveguide.specs.String.{noise_amount_of, params_of, tune, prepare, bend, read_plain, read_allpass, main_delay, stretches, hear, curve, step};
ghost use Rattle.waveguide.specs.String.{advance, mix, frame, process};
ghost use Rattle.waveguide.specs.Kept.{Good, words_of, words_at};
ghost use Rattle.waveguide.specs.Underway.{noise_after, Ahead, guess_of, guess_after, guess_at, begin};

use utils::filter::{DcBlocker, FrequencyApproximation, Svf};

// The non-linearity, each of the two with its amount: neither stands for an absence or a refusal.
#[derive(Clone, Copy)]
pub enum StringNonLinearity {
    CurvedBridge(f32),
    Dispersion(f32),
}

// A string's state. Its lines are lent: the string line of 1,024 and the stretch line of 256 behind it. That its places lie in them (`Good`) is asked where
// they are read and is no invariant: a caller's bank may hold any places.
#[derive(Clone, Copy)]
pub struct String {
    pub string: usize,
    pub stretch: usize,
    pub iir_damping_filter: Svf,
    pub dc_blocker: DcBlocker,
    pub delay: f32,
    pub dispersion_noise: f32,
    pub curved_bridge: f32,
    pub src_phase: f32,
    pub out_sample_0: f32,
    pub out_sample_1: f32,
    pub sample_rate_hz: f32,
}

// The damping of a block: brightness, frequency and cutoff, crossfaded to infinite decay.
#[derive(Clone, Copy)]
pub struct Damping {
    pub brightness: f32,
    pub f: f32,
    pub cutoff: f32,
}

// What a block's knobs come to.
#[derive(Clone, Copy)]
pub struct Params {
    pub src_ratio: f32,
    pub increment: f32,
    pub stretch_point: f32,
    pub stretch_correction: f32,
    pub noise_amount: f32,
    pub noise_filter: f32,
    pub bridge_curving: f32,
    pub ap_gain: f32,
}

// What is fixed over a block: the non-linearity, and what the knobs come to.
#[derive(Clone, Copy)]
pub struct Block {
    pub shape: StringNonLinearity,
    pub params: Params,
}

// A string tuned for a block, and the block.
#[derive(Clone, Copy)]
pub struct Prepared {
    pub string: String,
    pub block: Block,
}

// A string after a block, the generator's word, and how many words the block drew. The voice's has its filter beside these, which no string has.
#[derive(Clone, Copy)]
pub struct Played {
    pub string: String,
    pub word: u32,
    pub drawn: usize,
}

// A string within its loop, with the dispersion noise of its next step, a guess at its next delay's whole part, and the words drawn so far. A guess of 0 is
// never right, as no delay is below 1, so it is no Option, which each step would take apart.
#[derive(Clone, Copy)]
pub struct Underway {
    pub string: String,
    pub word: u32,
    pub next_noise: f32,
    pub guess: usize,
    pub drawn: usize,
}

// A delay that is bent, with the dispersion noise and the word after it, and for the next step its noise and the guess.
#[derive(Clone, Copy)]
pub struct Bent {
    pub delay: f32,
    pub dispersion_noise: f32,
    pub word: u32,
    pub next_noise: f32,
    pub guess: usize,
}

// What is read off the lines, and the stretch line's next place; by name, as what the all-pass gives.
#[derive(Clone, Copy)]
pub struct Heard {
    pub s: f32,
    pub stretch: usize,
}

// The amount's sign chooses: up to 0 a bridge, above it a dispersion.
#[tactic(auto, unfolding(crate::specs::String::non_linearity))]
pub fn non_linearity(amount: f32) -> StringNonLinearity
    ensures { result ≡ non_linearity amount }
{
    if amount <= 0.0 {
        StringNonLinearity::CurvedBridge(-amount)
    } else {
        StringNonLinearity::Dispersion(amount)
    }
}

impl StringNonLinearity {
    // The amount of either.
    fn amount(self) -> f32
        ensures { result ≡ amount_of self }
    {
        match self {
            StringNonLinearity::CurvedBridge(a) | StringNonLinearity::Dispersion(a) => a,
        }
    }

    // How many words a step draws.
    fn words(self) -> usize
        ensures { result ≡ words_of self }
    {
        match self {
            StringNonLinearity::CurvedBridge(_) => 0,
            StringNonLinearity::Dispersion(_) => 1,
        }
    }

    // The bridge's curve after a sample.
    #[tactic(auto, unfolding(crate::specs::String::curve))]
    fn curve(self, s: f32, bridge: f32) -> f32
        ensures { result ≡ curve self s bridge }
    {
        match self {
            StringNonLinearity::CurvedBridge(_) => {
                let value = ground::floats::abs(s) - 0.025;
                let curved = ground::floats::abs(value) + value;
                curved * if s > 0.0 { 1.0 } else { -1.5 }
            }
            StringNonLinearity::Dispersion(_) => bridge,
        }
    }
}

// 1/f0, held to what the line holds.
#[tactic(auto, unfolding(crate::specs::String::delay_of))]
fn delay_of(f0: f32) -> f32
    ensures { result ≡ delay_of f0 }
{
    ground::floats::clamp(1.0 / f0, 4.0, 1020.0)
}

// x, and 1 where the ratio is close to 1. The ratio is a number, and both the ratio itself and the phase go through it.
fn snapped(ratio: f32, x: f32) -> f32
    ensures { result ≡ snap ratio x }
{
    if ratio >= 0.9999 { 1.0 } else { x }
}

#[tactic(auto, unfolding(crate::specs::String::damping_of, crate::specs::String::cutoff_of, crate::specs::String::damping_f))]
fn damping_of(f0: f32, brightness: f32, damping: f32) -> Damping
    ensures { result ≡ damping_of f0 brightness damping }
{
    let cutoff = ground::floats::min(12.0 + damping * damping * 60.0 + brightness * 24.0, 84.0);
    let f = ground::floats::min(f0 * utils::units::semitones_to_ratio(cutoff), 0.499);
    if damping >= 0.95 {
        // Crossfade to infinite decay.
        let to_infinite = 20.0 * (damping - 0.95);
        Damping {
            brightness: brightness + to_infinite * (1.0 - brightness),
            f: f + to_infinite * (0.4999 - f),
            cutoff: cutoff + to_infinite * (128.0 - cutoff),
        }
    } else {
        Damping {
            brightness,
            f,
            cutoff,
        }
    }
}

// The shift table read at a cutoff.
#[tactic(auto, using(crate::proofs::Ranges::shift_in), unfolding(crate::specs::String::compensation_of))]
fn compensation_of(cutoff: f32) -> f32
    ensures { result ≡ compensation_of cutoff }
{
    let idx = ground::floats::split(ground::floats::clamp(cutoff, 0.0, 255.0));
    let i = idx.integral;
    let a = resources::svf::lut_svf_shift(i);
    let b = resources::svf::lut_svf_shift(i + 1);
    utils::crossfade(a, b, idx.fractional)
}

#[tactic(auto, unfolding(crate::specs::String::noise_amount_of))]
fn noise_amount_of(amount: f32) -> f32
    ensures { result ≡ noise_amount_of amount }
{
    let noise_amount_sqrt = if amount > 0.75 {
        4.0 * (amount - 0.75)
    } else {
        0.0
    };
    noise_amount_sqrt * noise_amount_sqrt * 0.1
}

#[tactic(auto, unfolding(crate::specs::String::params_of, crate::specs::String::ratio_of))]
fn params_of(s: String, f0: f32, amount: f32, d: Damping, n: usize) -> Params
    requires { n ≤ 2 ^ 24 }
    ensures { result ≡ params_of s f0 amount d n }
{
    let delay = delay_of(f0);
    let ratio = delay * f0;
    let target = delay * compensation_of(d.cutoff);
    let modulation = utils::parameter_interpolator::ParameterInterpolator::new(s.delay, target, n);
    Params {
        src_ratio: snapped(ratio, ratio),
        increment: modulation.increment,
        stretch_point: amount * (2.0 - amount) * 0.225,
        stretch_correction: ground::floats::clamp(160.0 / s.sample_rate_hz * delay, 1.0, 2.1),
        noise_amount: noise_amount_of(amount),
        noise_filter: 0.06 + 0.94 * d.brightness * d.brightness,
        bridge_curving: amount * amount * 0.01,
        ap_gain: -0.618 * amount / (0.15 + ground::floats::abs(amount)),
    }
}

// A frame's output.
#[tactic(auto, unfolding(crate::specs::String::mix))]
pub fn mix(y: f32, s: String) -> f32
    ensures { result ≡ mix y s }
{
    y + utils::crossfade(s.out_sample_1, s.out_sample_0, s.src_phase)
}

impl String {
    #[tactic(auto, unfolding(crate::specs::String::string_new))]
    pub fn new() -> String
        ensures { result ≡ string_new }
    {
        String {
            string: 0,
            stretch: 0,
            iir_damping_filter: Svf::new(),
            dc_blocker: DcBlocker::init(0.0),
            delay: 0.0,
            dispersion_noise: 0.0,
            curved_bridge: 0.0,
            src_phase: 0.0,
            out_sample_0: 0.0,
            out_sample_1: 0.0,
            sample_rate_hz: 48000.0,
        }
    }

    #[tactic(auto, unfolding(crate::specs::String::string_init, crate::specs::String::string_reset))]
    pub fn init(self, sample_rate_hz: f32, lines: &mut [f32]) -> String
        ensures { (result, lines.new) ≡ string_init self sample_rate_hz lines.old }
    {
        String {
            iir_damping_filter: self.iir_damping_filter.init(),
            dc_blocker: DcBlocker::init(1.0 - 20.0 / sample_rate_hz),
            delay: 100.0,
            sample_rate_hz,
            ..self.reset(lines)
        }
    }

    #[tactic(auto, unfolding(crate::specs::String::string_reset))]
    pub fn reset(self, lines: &mut [f32]) -> String
        ensures { (result, lines.new) ≡ string_reset self lines.old }
    {
        utils::delay_line::reset(lines);
        String {
            string: 0,
            stretch: 0,
            dispersion_noise: 0.0,
            curved_bridge: 0.0,
            src_phase: 0.0,
            out_sample_0: 0.0,
            out_sample_1: 0.0,
            ..self
        }
    }

    // The string line read by the cubic.
    #[inline(always)]
    #[tactic(auto, unfolding(crate::specs::String::read_plain, ground::specs::Part::part))]
    fn read_plain(self, lines: &[f32], delay: f32, guess: usize) -> Heard
        requires { Good (self, lines.now) }
        ensures { (result, lines.now) ≡ read_plain self delay lines.now }
    {
        Heard {
            s: utils::delay_line::read_hermite_near(&lines[0..1024], self.string, delay, guess),
            stretch: self.stretch,
        }
    }

    // The string line read in a straight line, and passed through the stretch line.
    #[inline(always)]
    #[tactic(auto, unfolding(crate::specs::String::read_allpass, ground::specs::Part::part, ground::specs::Part::put))]
    fn read_allpass(self, lines: &mut [f32], main: f32, ap: f32, gain: f32) -> Heard
        requires { Good (self, lines.old) }
        ensures { (result, lines.new) ≡ read_allpass self main ap gain lines.old }
    {
        let x = utils::delay_line::read_with_delay_frac(&lines[0..1024], self.string, main);
        let delay = ground::floats::whole_part(ap);
        let o = utils::delay_line::allpass(&mut lines[1024..1280], self.stretch, x, delay, gain);
        Heard {
            s: o.out,
            stretch: o.write_ptr,
        }
    }

    // The state with another phase.
    fn at_phase(self, src_phase: f32) -> String
        ensures { result ≡ record self { src_phase = src_phase } }
    {
        String { src_phase, ..self }
    }

    // The state with the phase snapped and the damping filter set.
    #[tactic(auto, unfolding(crate::specs::String::tune, crate::specs::String::ratio_of))]
    fn tune(self, f0: f32, d: Damping) -> String
        ensures { result ≡ tune self f0 d }
    {
        let filter = self.iir_damping_filter;
        String {
            iir_damping_filter: filter.set_f_q(d.f, 0.5, FrequencyApproximation::Fast),
            src_phase: snapped(delay_of(f0) * f0, self.src_phase),
            ..self
        }
    }

    // A string tuned for a block of n frames, and what the block's knobs come to.
    #[tactic(auto, unfolding(crate::specs::String::prepare))]
    pub fn prepare(
        self,
        shape: StringNonLinearity,
        f0: f32,
        brightness: f32,
        damping: f32,
        n: usize,
    ) -> Prepared
        requires { n ≤ 2 ^ 24 }
        ensures { result ≡ prepare self shape f0 brightness damping n }
    {
        let d = damping_of(f0, brightness, damping);
        let params = params_of(self, f0, shape.amount(), d, n);
        let string = self.tune(f0, d);
        let block = Block { shape, params };
        Prepared { string, block }
    }

    // A block of the string. The knobs come one by one, as in the Rust: two of them are raised, and a struct of the three would be made for this call alone.
    // At most 2^24 frames, which an f32 counts exactly: a buffer that a caller lends has no type that says so.
    #[tactic(auto, using(crate::proofs::Blocks::prepared_good), unfolding(crate::specs::String::process, crate::specs::String::prepare))]
    pub fn process(
        self,
        lines: &mut [f32],
        word: u32,
        shape: StringNonLinearity,
        f0: f32,
        brightness: f32,
        damping: f32,
        in_: &[f32],
        out: &mut [f32],
    ) -> Played
        requires { Good (self, lines.old) × (length out.old ≤ 2 ^ 24) }
        ensures { run (counted (process shape f0 brightness damping (self, lines.old) in_.now out.old)) word
            ≡ record { value = (((result.string, lines.new), out.new), result.drawn); word = result.word } }
    {
        let b = self.prepare(shape, f0, brightness, damping, out.len());
        b.block.run_frames(lines, b.string, word, in_, out)
    }
}

impl Block {
    // The dispersion noise after the word that is drawn next.
    #[tactic(auto, unfolding(crate::specs::Underway::noise_after))]
    fn noise_after(self, noise: f32, word: u32) -> f32
        ensures { result ≡ noise_after self.params noise word }
    {
        let u = ground::random::get_float(ground::random::get_word(word)) - 0.5;
        utils::one_pole(noise, u, self.params.noise_filter)
    }

    // The delay and the dispersion noise of a step. That noise was worked out a step ago, so that the line's reading need not wait for it.
    #[inline(always)]
    #[tactic(auto, unfolding(crate::specs::String::bend, crate::specs::Underway::guess_of, crate::specs::Underway::noise_after))]
    fn bend(self, delay: f32, noise: f32, next_noise: f32, bridge: f32, word: u32) -> Bent
        requires { next_noise ≡ noise_after self.params noise word }
        ensures { (run (bend self.shape self.params delay noise bridge) word ≡ record { value = (result.delay, result.dispersion_noise); word = result.word })
            × (result.next_noise ≡ noise_after self.params result.dispersion_noise result.word) × (result.guess ≡ guess_of self.shape result.delay) }
    {
        match self.shape {
            StringNonLinearity::CurvedBridge(_) => {
                let curved = delay * (1.0 - bridge * self.params.bridge_curving);
                Bent {
                    delay: curved,
                    dispersion_noise: noise,
                    word,
                    next_noise,
                    guess: ground::floats::whole_part(curved),
                }
            }
            StringNonLinearity::Dispersion(_) => {
                let drawn = ground::random::get_word(word);
                Bent {
                    delay: delay * (1.0 + next_noise * self.params.noise_amount),
                    dispersion_noise: next_noise,
                    word: drawn,
                    next_noise: self.noise_after(next_noise, drawn),
                    guess: 0,
                }
            }
        }
    }

    // The delay of the string line beside an all-pass delay.
    #[tactic(auto, unfolding(crate::specs::String::main_delay))]
    fn main_delay(self, delay: f32) -> f32
        ensures { result ≡ main_delay self.params delay }
    {
        let p = self.params;
        delay - delay * p.stretch_point * (0.408 - p.stretch_point * 0.308) * p.stretch_correction
    }

    // Whether the all-pass is used: by the dispersion, if both delays are at least 4.
    #[tactic(auto, unfolding(crate::specs::String::stretches))]
    fn stretches(self, delay: f32) -> bool
        ensures { result ≡ stretches self.shape self.params delay }
    {
        match self.shape {
            StringNonLinearity::CurvedBridge(_) => false,
            StringNonLinearity::Dispersion(_) => {
                (delay * self.params.stretch_point >= 4.0) & (self.main_delay(delay) >= 4.0)
            }
        }
    }

    // What is read off the lines at a delay.
    #[inline(always)]
    #[tactic(auto, unfolding(crate::specs::String::hear))]
    fn hear(self, lines: &mut [f32], s: String, delay: f32, guess: usize) -> Heard
        requires { Good (s, lines.old) }
        ensures { (result, lines.new) ≡ hear self.shape self.params s delay lines.old }
    {
        if self.stretches(delay) {
            let p = self.params;
            s.read_allpass(
                lines,
                self.main_delay(delay),
                delay * p.stretch_point,
                p.ap_gain,
            )
        } else {
            s.read_plain(lines, delay, guess)
        }
    }

    // A step of the string. As calls, it and what it calls hand the string on through memory in both loops, and a sustained block takes a tenth longer.
    #[inline(always)]
    fn step(self, lines: &mut [f32], v: Underway, in_sample: f32) -> Underway
        requires { Good (v.string, lines.old) × Ahead self.params v × (v.drawn < 2 ^ 63) }
        ensures { (run (step self.shape self.params in_sample (v.string, lines.old)) v.word ≡ record { value = (result.string, lines.new); word = result.word })
            × Ahead self.params result × (result.drawn ≡ v.drawn + words_of self.shape) × (result.guess ≡ guess_after self.shape self.params v) }
    {
        let t = v.string;
        let delay = t.delay + self.params.increment;
        let Bent {
            delay: bent,
            dispersion_noise,
            word,
            next_noise,
            guess,
        } = self.bend(
            delay,
            t.dispersion_noise,
            v.next_noise,
            t.curved_bridge,
            v.word,
        );
        let Heard { s, stretch } = self.hear(lines, t, bent, v.guess);
        let driven = s + ground::floats::clamp(in_sample, -20.0, 20.0);
        let dc_blocker = t.dc_blocker.process_sample(driven);
        let (iir_damping_filter, sample) = t.iir_damping_filter.process(dc_blocker.y);
        let next = utils::delay_line::write(&mut lines[0..1024], t.string, sample);
        let string = String {
            string: next,
            stretch,
            iir_damping_filter,
            dc_blocker,
            delay,
            dispersion_noise,
            curved_bridge: self.shape.curve(s, t.curved_bridge),
            out_sample_0: sample,
            out_sample_1: t.out_sample_0,
            ..t
        };
        Underway {
            string,
            word,
            next_noise,
            guess,
            drawn: v.drawn + self.shape.words(),
        }
    }

    #[inline(always)]
    #[tactic(auto, unfolding(crate::specs::String::advance))]
    pub fn advance(self, lines: &mut [f32], v: Underway, in_sample: f32) -> Underway
        requires { Good (v.string, lines.old) × Ahead self.params v × (v.drawn < 2 ^ 63) }
        ensures { (run (advance self.shape self.params in_sample (v.string, lines.old)) v.word
            ≡ record { value = (result.string, lines.new); word = result.word })
            × Ahead self.params result × (result.drawn ≡ v.drawn + words_at self.shape self.params.src_ratio v.string.src_phase)
            × (result.guess ≡ guess_at self.shape self.params v) }
    {
        let phase = v.string.src_phase + self.params.src_ratio;
        if phase > 1.0 {
            let string = v.string.at_phase(phase - 1.0);
            self.step(lines, Underway { string, ..v }, in_sample)
        } else {
            let string = v.string.at_phase(phase);
            Underway { string, ..v }
        }
    }

    // A string as its loop begins.
    #[tactic(auto, unfolding(crate::specs::Underway::begin))]
    pub fn begin(self, string: String, word: u32) -> Underway
        ensures { result ≡ begin self.params string word }
    {
        Underway {
            string,
            word,
            next_noise: self.noise_after(string.dispersion_noise, word),
            guess: ground::floats::whole_part(string.delay),
            drawn: 0,
        }
    }

    // The loop of `process`, by the frame's index: of what a zip with `iter_mut` wrote a proof knows the length alone.
    fn run_frames(
        self,
        lines: &mut [f32],
        s: String,
        word: u32,
        in_: &[f32],
        out: &mut [f32],
    ) -> Played
        requires { Good (s, lines.old) × (length out.old ≤ 2 ^ 24) }
        ensures { run (counted (frames (frame self.shape self.params) (s, lines.old) in_.now out.old)) word
            ≡ record { value = (((result.string, lines.new), out.new), result.drawn); word = result.word } }
    {
        let mut u = self.begin(s, word);
        for i in 0..in_.len().min(out.len()) {
            u = self.advance(lines, u, in_[i]);
            out[i] = mix(out[i], u.string);
        }
        let Underway {
            string,
            word,
            drawn,
            ..
        } = u;
        Played {
            string,
            word,
            drawn,
        }
    }
}
