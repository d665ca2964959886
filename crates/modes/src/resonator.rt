// Resonator, taken from Rings' code but with fixed position: 24 modes in six batches of four.
ghost use Rattle.std.specs.Prelude.{◌≡◌, ◌+◌, ◌*◌, ◌-◌, ◌<◌};
ghost use Rattle.ground.specs.F32.{◌⊗◌};
ghost use Rattle.ground.specs.Frames.{scan};
ghost use Rattle.modes.specs.Resonator.{svf_new, mode_of, tick_of, filters_new, resonator_new, resonator_init, resonator_process};
ghost use Rattle.modes.specs.Resonator.{cap_of, shrunk, next_of, nth_harmonic_compensation, first_of, q_loss_of};
ghost use Rattle.modes.specs.OnePass.{tuned, modes_of, modes_for, put_batch, states_of, state_at, put_state, batch_at, filters_of};
ghost use Rattle.modes.specs.OnePass.{mode_in, place_of, four_of, batch_sum, add_batches, frame_of};
ghost use Rattle.modes.specs.Subnormal.{batch_small, any_small};

use crate::subnormal::{is_small, product};
use utils::filter::FrequencyApproximation;

// What a mode keeps: ResonatorSvf<1>, and a mode of ResonatorSvf<4>.
#[derive(Clone, Copy)]
pub struct ResonatorSvf {
    pub state_1: f32,
    pub state_2: f32,
}

// ResonatorSvf<4>
#[derive(Clone, Copy)]
pub struct Batch {
    pub mode_0: ResonatorSvf,
    pub mode_1: ResonatorSvf,
    pub mode_2: ResonatorSvf,
    pub mode_3: ResonatorSvf,
}

#[derive(Clone, Copy)]
pub struct Resonator {
    pub mode_amplitude: [f32; 24],
    pub mode_filters: [Batch; 6],
}

// The coefficients of a mode.
#[derive(Clone, Copy)]
pub struct Mode {
    pub g: f32,
    pub r_plus_g: f32,
    pub h: f32,
    pub gain: f32,
}

// A mode after a sample, and its band pass and low pass there.
#[derive(Clone, Copy)]
pub struct Ticked {
    pub svf: ResonatorSvf,
    pub bp: f32,
    pub lp: f32,
}

// Where the loop over the modes stands.
#[derive(Clone, Copy)]
pub struct Partial {
    pub harmonic: f32,
    pub stretch_factor: f32,
    pub stiffness: f32,
    pub q: f32,
}

// The Rust's mode_f, mode_q and mode_a. An array of structs would name each of the three as often, where it is filled and where it is read.
#[derive(Clone, Copy)]
pub struct Tuned {
    pub f: [f32; 24],
    pub q: [f32; 24],
    pub a: [f32; 24],
}

// The coefficients of all modes, each at its number. Each coefficient has an array to itself, so that the processor takes four modes at once:
// tried in C, the same loop over an array of structs takes 2.4 times as long.
#[derive(Clone, Copy)]
pub struct Modes {
    pub g: [f32; 24],
    pub r_plus_g: [f32; 24],
    pub h: [f32; 24],
    pub gain: [f32; 24],
}

// What all modes keep, in arrays for the same reason.
#[derive(Clone, Copy)]
pub struct States {
    pub state_1: [f32; 24],
    pub state_2: [f32; 24],
}

// ---- ResonatorSvf

impl ResonatorSvf {
    // `new` and `init`
    #[tactic(auto, unfolding(crate::specs::Resonator::svf_new))]
    pub fn new() -> ResonatorSvf
        ensures { result ≡ svf_new }
    {
        ResonatorSvf {
            state_1: 0.0,
            state_2: 0.0,
        }
    }
}

#[tactic(auto, unfolding(crate::specs::Resonator::mode_of))]
pub fn mode_of(f: f32, q: f32, gain: f32) -> Mode
    ensures { result ≡ mode_of f q gain }
{
    let g = utils::filter::tan(f, FrequencyApproximation::Fast);
    let r = 1.0 / q;
    Mode {
        g,
        r_plus_g: r + g,
        h: 1.0 / (1.0 + r * g + g * g),
        gain,
    }
}

// The product of a and b; at SMALL as if it were subnormal.
pub fn times<const SMALL: bool>(a: f32, b: f32) -> f32
    ensures { result ≡ a ⊗ b }
{
    if SMALL { product(a, b) } else { a * b }
}

// A sample through a mode; at SMALL its products are taken as if they were subnormal.
#[tactic(auto, unfolding(crate::specs::Resonator::tick_of))]
pub fn tick<const SMALL: bool>(k: Mode, s: ResonatorSvf, x: f32) -> Ticked
    ensures { result ≡ tick_of k s x }
{
    let r = times::<SMALL>(k.r_plus_g, s.state_1);
    let hp = times::<SMALL>(x - r - s.state_2, k.h);
    let g_hp = times::<SMALL>(k.g, hp);
    let bp = g_hp + s.state_1;
    let g_bp = times::<SMALL>(k.g, bp);
    let lp = g_bp + s.state_2;
    let svf = ResonatorSvf {
        state_1: g_hp + bp,
        state_2: g_bp + lp,
    };
    Ticked { svf, bp, lp }
}

// ---- the modes of a block

// A mode's frequency, at most 0.499.
#[tactic(auto, unfolding(crate::specs::Resonator::cap_of))]
fn cap(f: f32) -> f32
    ensures { result ≡ cap_of f }
{
    if f >= 0.499 { 0.499 } else { f }
}

// The stiffness at the next mode.
#[tactic(auto, unfolding(crate::specs::Resonator::shrunk))]
fn shrink(stiffness: f32) -> f32
    ensures { result ≡ shrunk stiffness }
{
    if stiffness < 0.0 {
        stiffness * 0.93
    } else {
        stiffness * 0.98
    }
}

// The next mode's. Every field moves on, so that none is copied.
#[tactic(auto, unfolding(crate::specs::Resonator::next_of))]
fn next_partial(f0: f32, q_loss: f32, p: Partial) -> Partial
    ensures { result ≡ next_of f0 q_loss p }
{
    Partial {
        harmonic: p.harmonic + f0,
        stretch_factor: p.stretch_factor + p.stiffness,
        stiffness: shrink(p.stiffness),
        q: p.q * q_loss,
    }
}

fn nth_harmonic_compensation(n: usize, stiffness: f32) -> f32
    requires { 0 < n }
    ensures { result ≡ nth_harmonic_compensation n stiffness }
{
    let mut stretch_factor = 1.0f32;
    let mut s = stiffness;
    for _ in 0..n - 1 {
        stretch_factor += s;
        s = shrink(s);
    }
    1.0 / stretch_factor
}

#[tactic(auto, unfolding(crate::specs::Resonator::first_of))]
fn first_partial(f0: f32, stiffness: f32, q_sqrt: f32) -> Partial
    ensures { result ≡ first_of f0 stiffness q_sqrt }
{
    Partial {
        harmonic: f0,
        stretch_factor: 1.0,
        stiffness,
        q: 500.0 * q_sqrt * q_sqrt,
    }
}

// The factor that takes a mode's q to the next one's. The three numbers are parameters of the Rust's `process`, by its names.
#[tactic(auto, unfolding(crate::specs::Resonator::q_loss_of))]
fn q_loss_of(structure: f32, brightness: f32, damping: f32) -> f32
    ensures { result ≡ q_loss_of structure brightness damping }
{
    let b = brightness * (1.0 - structure * 0.3) * (1.0 - damping * 0.3);
    b * (2.0 - b) * 0.85 + 0.15
}

fn tune(mode_amplitude: [f32; 24], f0: f32, q_loss: f32, first: Partial) -> Tuned
    ensures { result ≡ tuned mode_amplitude f0 q_loss first }
{
    let mut t = Tuned {
        f: [0.0; 24],
        q: [0.0; 24],
        a: [0.0; 24],
    };
    let mut p = first;
    // by index: three arrays are written at the place where one is read
    for i in 0..24 {
        let mode_frequency = cap(p.harmonic * p.stretch_factor);
        t.f[i] = mode_frequency;
        t.q[i] = 1.0 + mode_frequency * p.q;
        t.a[i] = mode_amplitude[i] * (1.0 - mode_frequency * 2.0);
        p = next_partial(f0, q_loss, p);
    }
    t
}

// The coefficients of all modes.
fn modes_of(t: Tuned) -> Modes
    ensures { result ≡ modes_of t }
{
    let mut modes = Modes {
        g: [0.0; 24],
        r_plus_g: [0.0; 24],
        h: [0.0; 24],
        gain: [0.0; 24],
    };
    // by index: four arrays are written, and three read
    for i in 0..24 {
        let k = mode_of(t.f[i], t.q[i], t.a[i]);
        modes.g[i] = k.g;
        modes.r_plus_g[i] = k.r_plus_g;
        modes.h[i] = k.h;
        modes.gain[i] = k.gain;
    }
    modes
}

// The coefficients of all modes for a block. The numbers behind the amplitudes are the parameters of the Rust's `process`, by its names and in its order.
// In line: as a call it gives its 384 bytes through memory, and whoever calls it copies them.
#[inline(always)]
#[tactic(auto, using(crate::proofs::OnePass::made))]
pub fn modes_for(
    mode_amplitude: [f32; 24],
    f0: f32,
    structure: f32,
    brightness: f32,
    damping: f32,
) -> Modes
    ensures { result ≡ modes_for mode_amplitude f0 structure brightness damping }
{
    let stiffness = utils::interpolate(structure);
    let f = f0 * nth_harmonic_compensation(3, stiffness);
    let q_sqrt = utils::units::semitones_to_ratio(damping * 79.7);
    let first = first_partial(f, stiffness, q_sqrt);
    let q_loss = q_loss_of(structure, brightness, damping);
    modes_of(tune(mode_amplitude, f, q_loss, first))
}

// ---- what the modes keep, in batches and side by side

impl States {
    // What the mode at a place keeps: a number of each array, which no struct has together.
    fn mode_at(&self, t: usize) -> ResonatorSvf
        requires { t < 24 }
        ensures { result ≡ state_at self.now t }
    {
        ResonatorSvf {
            state_1: self.state_1[t],
            state_2: self.state_2[t],
        }
    }

    // It put to its place.
    fn put(&mut self, t: usize, mode: ResonatorSvf)
        requires { t < 24 }
        ensures { self.new ≡ put_state mode t self.old }
    {
        self.state_1[t] = mode.state_1;
        self.state_2[t] = mode.state_2;
    }

    // A batch's states to their places. Its modes are fields by name, which no loop goes over.
    #[tactic(auto, unfolding(crate::specs::OnePass::put_batch))]
    fn put_batch(&mut self, batch: Batch, first: usize)
        requires { first + 3 < 24 }
        ensures { self.new ≡ put_batch batch first self.old }
    {
        self.put(first, batch.mode_0);
        self.put(first + 1, batch.mode_1);
        self.put(first + 2, batch.mode_2);
        self.put(first + 3, batch.mode_3);
    }

    #[tactic(auto, unfolding(crate::specs::OnePass::batch_at))]
    fn batch_at(&self, first: usize) -> Batch
        requires { first + 3 < 24 }
        ensures { result ≡ batch_at self.now first }
    {
        Batch {
            mode_0: self.mode_at(first),
            mode_1: self.mode_at(first + 1),
            mode_2: self.mode_at(first + 2),
            mode_3: self.mode_at(first + 3),
        }
    }

    // Whether a mode of the batch is small: a mode multiplies what it keeps in state_1 alone.
    #[tactic(auto, unfolding(crate::specs::Subnormal::batch_small))]
    fn batch_small(&self, first: usize) -> bool
        requires { first + 3 < 24 }
        ensures { result ≡ batch_small self.now first }
    {
        is_small(self.state_1[first])
            | is_small(self.state_1[first + 1])
            | is_small(self.state_1[first + 2])
            | is_small(self.state_1[first + 3])
    }

    // Whether a mode is small.
    pub fn any_small(&self) -> bool
        ensures { result ≡ any_small self.now }
    {
        let mut small = false;
        for b in 0..6 {
            small |= self.batch_small(4 * b);
        }
        small
    }
}

// The states of all batches, each at its place.
impl From<[Batch; 6]> for States {
    ghost from_gives = { λ fs s. s ≡ states_of fs };

    fn from(mode_filters: [Batch; 6]) -> States {
        let mut states = States {
            state_1: [0.0; 24],
            state_2: [0.0; 24],
        };
        for b in 0..6 {
            states.put_batch(mode_filters[b], 4 * b);
        }
        states
    }
}

// And back.
impl From<States> for [Batch; 6] {
    ghost from_gives = { λ s fs. fs ≡ filters_of s };

    fn from(states: States) -> [Batch; 6] {
        let mut mode_filters = cleared();
        for b in 0..6 {
            mode_filters[b] = states.batch_at(4 * b);
        }
        mode_filters
    }
}

// ---- a frame

impl Modes {
    // The coefficients of the mode at a place: a number of each array, which no struct has together.
    fn mode_at(&self, t: usize) -> Mode
        requires { t < 24 }
        ensures { result ≡ mode_in self.now t }
    {
        Mode {
            g: self.g[t],
            r_plus_g: self.r_plus_g[t],
            h: self.h[t],
            gain: self.gain[t],
        }
    }

    // A sample through the mode at a place, and what is heard of it; at SMALL the products are taken as if they were subnormal.
    #[inline(always)]
    fn tick_place<const SMALL: bool>(
        &self,
        states: &mut States,
        bands: &mut [f32; 24],
        x: f32,
        t: usize,
    )
        requires { t < 24 }
        ensures { record { states = states.new; bands = bands.new } ≡ place_of self.now x (record { states = states.old; bands = bands.old }) t }
    {
        let k = self.mode_at(t);
        let o = tick::<SMALL>(k, states.mode_at(t), x);
        states.put(t, o.svf);
        bands[t] = times::<SMALL>(k.gain, o.bp);
    }

    // A sample through the modes of a batch.
    #[inline(always)]
    fn tick_batch<const SMALL: bool>(
        &self,
        states: &mut States,
        bands: &mut [f32; 24],
        x: f32,
        first: usize,
    )
        requires { first + 3 < 24 }
        ensures { record { states = states.new; bands = bands.new } ≡ four_of self.now x (record { states = states.old; bands = bands.old }) first }
    {
        self.tick_place::<SMALL>(states, bands, x, first);
        self.tick_place::<SMALL>(states, bands, x, first + 1);
        self.tick_place::<SMALL>(states, bands, x, first + 2);
        self.tick_place::<SMALL>(states, bands, x, first + 3);
    }

    // A frame: each batch, at AROUND around subnormal products where one of its modes is small, then every sum.
    // The compiler would leave a second call of it a call.
    #[inline(always)]
    pub fn frame<const AROUND: bool>(&self, states: &mut States, x: f32, y: f32) -> f32
        ensures { (states.new, result) ≡ frame_of self.now states.old x y }
    {
        let mut bands = [0.0f32; 24];
        for b in 0..6 {
            if AROUND && states.batch_small(4 * b) {
                self.tick_batch::<true>(states, &mut bands, x, 4 * b);
            } else {
                self.tick_batch::<false>(states, &mut bands, x, 4 * b);
            }
        }
        add_batches(y, &bands)
    }

    // A frame, around subnormal products where `small` says that there may be some, which changes no bit.
    #[inline(always)]
    pub fn frame_at(&self, small: bool, states: &mut States, x: f32, y: f32) -> f32
        ensures { (states.new, result) ≡ frame_of self.now states.old x y }
    {
        if small {
            self.frame::<true>(states, x, y)
        } else {
            self.frame::<false>(states, x, y)
        }
    }
}

// The sum of a batch. Its line shows the order of the four terms, which a loop would not.
#[tactic(auto, unfolding(crate::specs::OnePass::batch_sum))]
fn batch_sum(bands: &[f32; 24], first: usize) -> f32
    requires { first + 3 < 24 }
    ensures { result ≡ batch_sum bands.now first }
{
    0.0 + bands[first] + bands[first + 1] + bands[first + 2] + bands[first + 3]
}

// The sum of each batch, added to y in turn.
#[tactic(auto, unfolding(crate::specs::OnePass::add_batches))]
fn add_batches(y: f32, bands: &[f32; 24]) -> f32
    ensures { result ≡ add_batches y bands.now }
{
    y + batch_sum(bands, 0)
        + batch_sum(bands, 4)
        + batch_sum(bands, 8)
        + batch_sum(bands, 12)
        + batch_sum(bands, 16)
        + batch_sum(bands, 20)
}

// Each frame through all modes.
fn run_frames<const AROUND: bool>(k: &Modes, states: &mut States, in_: &[f32], out: &mut [f32])
    ensures { (states.new, out.new) ≡ scan (frame_of k.now) states.old in_.now out.old }
{
    // by index: a proof knows nothing of what a zip with `iter_mut` wrote
    for i in 0..in_.len().min(out.len()) {
        out[i] = k.frame::<AROUND>(states, in_[i], out[i]);
    }
}

// ---- Resonator

impl Resonator {
    #[tactic(auto, unfolding(crate::specs::Resonator::resonator_new))]
    pub fn new() -> Resonator
        ensures { result ≡ resonator_new }
    {
        Resonator {
            mode_amplitude: [0.0; 24],
            mode_filters: cleared(),
        }
    }

    // `init` at a position, with all 24 modes.
    #[tactic(auto, unfolding(crate::specs::Resonator::resonator_init))]
    pub fn init(self, position: f32) -> Resonator
        ensures { result ≡ resonator_init self position }
    {
        Resonator {
            mode_amplitude: utils::cosine_oscillator::amplitudes(position),
            mode_filters: cleared(),
        }
    }

    // The six batches in one pass over the frames, `around` subnormal products or not, which changes no bit.
    // The parameters behind it are those of the Rust's `process`.
    pub fn process(
        self,
        around: bool,
        f0: f32,
        structure: f32,
        brightness: f32,
        damping: f32,
        in_: &[f32],
        out: &mut [f32],
    ) -> Resonator
        ensures { (result, out.new) ≡ resonator_process self f0 structure brightness damping in_.now out.old }
    {
        let k = modes_for(self.mode_amplitude, f0, structure, brightness, damping);
        let mut states = States::from(self.mode_filters);
        let around = around & states.any_small();
        if around {
            run_frames::<true>(&k, &mut states, in_, out);
        } else {
            run_frames::<false>(&k, &mut states, in_, out);
        }
        Resonator {
            mode_filters: states.into(),
            ..self
        }
    }
}

// Six batches of four, each state 0.
#[tactic(auto, unfolding(crate::specs::Resonator::filters_new))]
fn cleared() -> [Batch; 6]
    ensures { result ≡ filters_new }
{
    let svf = ResonatorSvf::new();
    let batch = Batch {
        mode_0: svf,
        mode_1: svf,
        mode_2: svf,
        mode_3: svf,
    };
    [batch; 6]
}
