// Simple modal synthesis voice with a mallet exciter: click -> LPF -> resonator. With sustain the click is replaced by dust.
ghost use Rattle.std.specs.Prelude.{◌≡◌, true};
ghost use Rattle.ground.specs.Draw.{ret, run, Ran};
ghost use Rattle.noise.specs.Buffers.{IsAlike, IsSame};
ghost use Rattle.modes.specs.Resonator.{svf_process_low};
ghost use Rattle.modal_voice.specs.OneLoop.{filter_of, low_same, low_pass_for, InOne, Renders};
ghost use Rattle.modal_voice.specs.ModalVoice.{voice_new, voice_init, cutoff_for, resonance_for, strike_of, clicked, excitation, held_after};
ghost use Rattle.modal_voice.specs.ModalVoice.{excitation_words, excitation_counts, Excited, excite_of, Sounded, sound_of, After, render_of};

use modes::resonator::{Batch, Mode, Modes, Resonator, ResonatorSvf, States};
use modes::subnormal::is_small;
use noise::ahead::{Filter, Passed, Same};
use noise::buffers::Buffers;
use noise::excitation::{Counts, Knobs, Rendered};
use noise::settling::{settle, silent_from};

// A voice. A strike on an empty block is held for the next block that has frames; that one waits is all there is to know of it, so `held` is no Option.
#[derive(Clone, Copy)]
pub struct ModalVoice {
    pub excitation_filter: ResonatorSvf,
    pub resonator: Resonator,
    pub held: bool,
}

// The cutoff of the excitation filter. The string's is another function of the Rust, whose range and base are the same with and without `sustain`.
#[tactic(auto, unfolding(crate::specs::ModalVoice::cutoff_for))]
fn cutoff_for(k: Knobs) -> f32
    ensures { result ≡ cutoff_for k }
{
    let brightness = noise::excitation::raise(k.accent, k.brightness);
    let range = if k.sustain { 36.0 } else { 60.0 };
    let semitones = (brightness * (2.0 - brightness) - 0.5) * range;
    let ratio = utils::units::semitones_to_ratio(semitones);
    let base = if k.sustain { 4.0 * k.f0 } else { 2.0 * k.f0 };
    ground::floats::min(base * ratio, 0.499)
}

// The resonance of the excitation filter.
fn resonance_for(k: Knobs) -> f32
    ensures { result ≡ resonance_for k }
{
    if k.sustain { 0.7 } else { 1.5 }
}

// The click of a strike.
#[tactic(auto, unfolding(crate::specs::ModalVoice::strike_of))]
fn strike(accent: f32, damping: f32, cutoff: f32) -> f32
    ensures { result ≡ strike_of accent damping cutoff }
{
    let attenuation = 1.0 - damping * 0.5;
    let amplitude = (0.12 + 0.08 * accent) * attenuation;
    amplitude * utils::units::semitones_to_ratio(cutoff * cutoff * 24.0) / cutoff
}

// Silence, and a click in its first frame where a strike sounds.
#[tactic(auto, using(crate::proofs::Halves::no_strike, crate::proofs::Halves::no_frames, crate::proofs::Halves::struck))]
fn fill_click(k: Knobs, held: bool, cutoff: f32, temp: &mut [f32])
    ensures { temp.new ≡ clicked k held cutoff temp.old }
{
    utils::delay_line::reset(temp);
    if !(k.trigger | held) {
        return;
    }
    if let Some(first) = temp.first_mut() {
        let damping = noise::excitation::raise(k.accent, k.damping);
        *first = strike(k.accent, damping, cutoff);
    }
}

// Dust where the voice is sustained; else the click. The string's has other constants, and noise for the click: one for both would be handed all that differs.
#[tactic(auto, unfolding(crate::specs::ModalVoice::excitation))]
fn fill_excitation(k: Knobs, held: bool, cutoff: f32, temp: &mut [f32], word: u32) -> u32
    ensures { run (excitation k.sustain k held cutoff temp.old) word ≡ record { value = temp.new; word = result } }
{
    if k.sustain {
        let f = noise::excitation::dust_frequency(k.brightness);
        noise::excitation::fill_dust(f, 4.0 - f * 3.0, k.accent, temp, word)
    } else {
        fill_click(k, held, cutoff, temp);
        word
    }
}

// Whether a strike is held after a block of n.
#[tactic(auto, unfolding(crate::specs::ModalVoice::held_after))]
fn held_after(k: Knobs, held: bool, n: usize) -> bool
    ensures { result ≡ held_after k held n }
{
    if n > 0 {
        return false;
    }
    held | (k.trigger & !k.sustain)
}

// The words of the excitation of n frames. The flag chooses a number, and no step to run.
fn counts_of(sustain: bool, n: usize) -> Counts
    ensures { result ≡ excitation_counts (excitation_words sustain n) }
{
    Counts {
        burst: 0,
        dust: if sustain { n } else { 0 },
        dispersion: 0,
    }
}

// The excitation filter at its mode; around subnormal products at AROUND, where its memory is small.
#[derive(Clone, Copy)]
pub struct LowPass<const AROUND: bool> {
    pub mode: Mode,
    pub svf: ResonatorSvf,
}

impl<const AROUND: bool> LowPass<AROUND> {
    // A sample through it; at SMALL its products are taken as if they were subnormal.
    #[tactic(auto, unfolding(ground::specs::Frames::scan))]
    #[inline(always)]
    fn pass<const SMALL: bool>(self, x: f32) -> (LowPass<AROUND>, f32)
        ensures { result ≡ filter_of self.entry x }
    {
        let t = modes::resonator::tick::<SMALL>(self.mode, self.svf, x);
        let given = 0.0 + modes::resonator::times::<SMALL>(self.mode.gain, t.lp);
        (LowPass { svf: t.svf, ..self }, given)
    }
}

impl<const AROUND: bool> Filter for LowPass<AROUND> {
    ghost step = { filter_of };

    // As a call it takes the frames of all modes a seventh longer.
    #[inline(always)]
    fn step(self, x: f32) -> (LowPass<AROUND>, f32) {
        if AROUND && is_small(self.svf.state_1) {
            self.pass::<true>(x)
        } else {
            self.pass::<false>(x)
        }
    }

    fn is(self, other: LowPass<AROUND>) -> bool
        ensures { (result ≡ low_same self.entry other.entry) × (result ≡ true → self.entry ≡ other.entry) }
    {
        self.is_same(other)
    }
}

impl<const AROUND: bool> Same for LowPass<AROUND> {
    ghost same = { low_same };

    fn is_same(self, other: LowPass<AROUND>) -> bool {
        ground::bits::same(self.svf.state_1, other.svf.state_1)
            && ground::bits::same(self.svf.state_2, other.svf.state_2)
            && ground::bits::same(self.mode.g, other.mode.g)
            && ground::bits::same(self.mode.r_plus_g, other.mode.r_plus_g)
            && ground::bits::same(self.mode.h, other.mode.h)
            && ground::bits::same(self.mode.gain, other.mode.gain)
    }
}

impl LowPass<false> {
    // The same filter, around subnormal products.
    fn around(self) -> LowPass<true>
        ensures { result ≡ record { mode = self.mode; svf = self.svf } }
    {
        LowPass {
            mode: self.mode,
            svf: self.svf,
        }
    }
}

// The filter over a block, `around` subnormal products or not, which changes no bit; gives what it keeps behind it.
fn filter_frames(
    around: bool,
    filter: LowPass<false>,
    temp: &[f32],
    temp_2: &mut [f32],
) -> ResonatorSvf
    ensures { (result, temp_2.new) ≡ svf_process_low filter.mode filter.svf temp.now temp_2.old }
{
    let m = silent_from(temp);
    if around {
        settle(filter.around(), temp, m, temp_2).svf
    } else {
        settle(filter, temp, m, temp_2).svf
    }
}

// The frames of both halves in one loop; at AROUND around subnormal products, of the modes from a frame in sixteen at which one of them is small. The
// excitation filter is a frame ahead of the modes, so that neither waits for the other.
fn frames_in_one<const AROUND: bool>(
    filter: LowPass<AROUND>,
    m: &Modes,
    mode_filters: [Batch; 6],
    b: &mut Buffers,
) -> (ResonatorSvf, [Batch; 6])
    requires { IsAlike b.old }
    ensures { InOne filter.entry.mode filter.entry.svf m.now mode_filters b.old result b.new }
{
    // Each field by itself: a pattern that takes `b` apart leaves two `&mut` before each buffer, and the proof of a call that is lent one does not close.
    let temp = &mut *b.temp;
    let temp_2 = &mut *b.temp_2;
    let out = &mut *b.out;
    let aux = &mut *b.aux;
    let mut states = States::from(mode_filters);
    let mut ahead = Passed::first_compared(filter, temp);
    let mut small = false;
    // by index: the filter reads a frame ahead, and four buffers are written
    for i in 0..temp.len() {
        if AROUND && i % 16 == 0 {
            small = states.any_small();
        }
        let x = ahead.out;
        ahead = ahead.on_compared(temp, i);
        temp_2[i] = x;
        aux[i] += x;
        out[i] = m.frame_at(small, &mut states, x, out[i]);
    }
    (ahead.filter.svf, states.into())
}

// The same, `around` subnormal products or not, which changes no bit.
fn frames_at(
    around: bool,
    filter: LowPass<false>,
    m: &Modes,
    mode_filters: [Batch; 6],
    b: &mut Buffers,
) -> (ResonatorSvf, [Batch; 6])
    requires { IsAlike b.old }
    ensures { InOne filter.mode filter.svf m.now mode_filters b.old result b.new }
{
    if around {
        frames_in_one(filter.around(), m, mode_filters, b)
    } else {
        frames_in_one(filter, m, mode_filters, b)
    }
}

impl ModalVoice {
    #[tactic(auto, unfolding(crate::specs::ModalVoice::voice_new))]
    pub fn new() -> ModalVoice
        ensures { result ≡ voice_new }
    {
        ModalVoice {
            excitation_filter: ResonatorSvf::new(),
            resonator: Resonator::new(),
            held: false,
        }
    }

    #[tactic(auto, unfolding(crate::specs::ModalVoice::voice_init))]
    pub fn init(self) -> ModalVoice
        ensures { result ≡ voice_init self }
    {
        ModalVoice {
            excitation_filter: ResonatorSvf::new(),
            resonator: self.resonator.init(0.015),
            held: false,
        }
    }

    // The excitation filter of a block.
    fn low_pass(self, k: Knobs, cutoff: f32) -> LowPass<false>
        ensures { result ≡ low_pass_for k cutoff self }
    {
        LowPass {
            mode: modes::resonator::mode_of(cutoff, resonance_for(k), 1.0),
            svf: self.excitation_filter,
        }
    }

    // The first half of `render`: the excitation, its filter, and the mix into aux.
    pub fn excite(
        self,
        k: Knobs,
        temp: &mut [f32],
        temp_2: &mut [f32],
        aux: &mut [f32],
        word: u32,
    ) -> Rendered<ModalVoice>
        ensures { run (excite_of k self temp.old temp_2.old aux.old) word ≡ record {
          value = record { voice = result.voice; temp = temp.new; temp2 = temp_2.new; aux = aux.new; counts = result.counts };
          word = result.word;
        } }
    {
        self.excite_at(false, k, temp, temp_2, aux, word)
    }

    // The same, its filter `around` subnormal products or not, which changes no bit.
    fn excite_at(
        self,
        around: bool,
        k: Knobs,
        temp: &mut [f32],
        temp_2: &mut [f32],
        aux: &mut [f32],
        word: u32,
    ) -> Rendered<ModalVoice>
        ensures { run (excite_of k self temp.old temp_2.old aux.old) word ≡ record {
          value = record { voice = result.voice; temp = temp.new; temp2 = temp_2.new; aux = aux.new; counts = result.counts };
          word = result.word;
        } }
    {
        let cutoff = cutoff_for(k);
        let held = held_after(k, self.held, temp.len());
        let counts = counts_of(k.sustain, temp.len());
        let drawn = fill_excitation(k, self.held, cutoff, temp, word);
        let filtered = filter_frames(around, self.low_pass(k, cutoff), temp, temp_2);
        noise::excitation::add_into(temp_2, aux);
        let voice = ModalVoice {
            excitation_filter: filtered,
            held,
            ..self
        };
        Rendered {
            voice,
            word: drawn,
            counts,
        }
    }

    // The second half: the resonator from temp_2 into out, `around` subnormal products or not, which changes no bit. It draws no word.
    #[tactic(auto, unfolding(crate::specs::ModalVoice::sound_of))]
    pub fn sound(self, around: bool, k: Knobs, temp_2: &[f32], out: &mut [f32]) -> ModalVoice
        ensures { sound_of k self temp_2.now out.old ≡ ret record { voice = result; out = out.new } }
    {
        let brightness = noise::excitation::raise(k.accent, k.brightness);
        let damping = noise::excitation::raise(k.accent, k.damping);
        let before = self.resonator;
        let resonator = before.process(around, k.f0, k.structure, brightness, damping, temp_2, out);
        ModalVoice { resonator, ..self }
    }

    // Both halves in one loop.
    fn render_in_one(
        self,
        around: bool,
        k: Knobs,
        b: &mut Buffers,
        word: u32,
    ) -> Rendered<ModalVoice>
        requires { IsAlike b.old }
        ensures { Renders k self b.old word result b.new }
    {
        let cutoff = cutoff_for(k);
        let held = held_after(k, self.held, b.temp.len());
        let counts = counts_of(k.sustain, b.temp.len());
        let drawn = fill_excitation(k, self.held, cutoff, b.temp, word);
        let filter = self.low_pass(k, cutoff);
        let brightness = noise::excitation::raise(k.accent, k.brightness);
        let damping = noise::excitation::raise(k.accent, k.damping);
        let resonator = self.resonator;
        let amplitude = resonator.mode_amplitude;
        let modes = modes::resonator::modes_for(amplitude, k.f0, k.structure, brightness, damping);
        let (svf, mode_filters) = frames_at(around, filter, &modes, resonator.mode_filters, b);
        let voice = ModalVoice {
            excitation_filter: svf,
            resonator: Resonator {
                mode_filters,
                ..resonator
            },
            held,
        };
        Rendered {
            voice,
            word: drawn,
            counts,
        }
    }

    // Both halves in turn, but a sustained block in one loop; `around` subnormal products or not, which changes no bit.
    pub fn render(self, around: bool, k: Knobs, b: &mut Buffers, word: u32) -> Rendered<ModalVoice>
        requires { IsAlike b.old }
        ensures all { run (render_of k self b.old.temp.now b.old.temp_2.now b.old.out.now b.old.aux.now) word ≡ record {
          value = record {
            voice = result.voice;
            temp = b.new.temp.now;
            temp2 = b.new.temp_2.now;
            out = b.new.out.now;
            aux = b.new.aux.now;
            counts = result.counts;
          };
          word = result.word;
        } }
        ensures same { IsSame b.new b.old }
    {
        if k.sustain {
            self.render_in_one(around, k, b, word)
        } else {
            let temp_2 = &mut *b.temp_2;
            let e = self.excite_at(around, k, b.temp, temp_2, b.aux, word);
            let voice = e.voice.sound(around, k, temp_2, b.out);
            Rendered { voice, ..e }
        }
    }
}
