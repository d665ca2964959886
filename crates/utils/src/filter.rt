// Zero-delay-feedback filters: the state variable filter at its low pass, and the DC blocker.
ghost use Rattle.std.specs.Prelude.{◌≡◌};
ghost use Rattle.utils.specs.Filter.{tan_of, dc_init, dc_process_sample, dc_process, svf_new, svf_init, svf_reset, svf_set_f_q, svf_process};
ghost use Rattle.utils.specs.Filter.{svf_process_buffer};

#[derive(Clone, Copy)]
pub enum FrequencyApproximation {
    Fast,
    Dirty,
}

const M_PI_F: f32 = 3.14159265358979323846264338327950288;

const M_PI_POW_2: f32 = M_PI_F * M_PI_F;

const M_PI_POW_3: f32 = M_PI_POW_2 * M_PI_F;

const M_PI_POW_5: f32 = M_PI_POW_3 * M_PI_POW_2;

const DIRTY_A: f32 = 3.736e-01 * M_PI_POW_3;

const FAST_A: f32 = 3.260e-01 * M_PI_POW_3;

const FAST_B: f32 = 1.823e-01 * M_PI_POW_5;

#[derive(Clone, Copy)]
pub struct DcBlocker {
    pub pole: f32,
    pub x: f32,
    pub y: f32,
}

impl DcBlocker {
    #[tactic(auto, unfolding(crate::specs::Filter::dc_init))]
    pub fn init(pole: f32) -> DcBlocker
        ensures { result ≡ dc_init pole }
    {
        DcBlocker {
            pole,
            x: 0.0,
            y: 0.0,
        }
    }

    // `process` of one sample, which is the new y.
    #[tactic(auto, unfolding(crate::specs::Filter::dc_process_sample))]
    pub fn process_sample(self, sample: f32) -> DcBlocker
        ensures { result ≡ dc_process_sample self sample }
    {
        DcBlocker {
            x: sample,
            y: self.y * self.pole + sample - self.x,
            ..self
        }
    }

    pub fn process(self, in_out: &mut [f32]) -> DcBlocker
        ensures { (result, in_out.new) ≡ dc_process self in_out.old }
    {
        let mut blocker = self;
        for sample in in_out.iter_mut() {
            blocker = blocker.process_sample(*sample);
            *sample = blocker.y;
        }
        blocker
    }
}

// OnePole::tan
#[tactic(auto, using(crate::proofs::Constants::pi_bits, crate::proofs::Constants::dirty_a_bits, crate::proofs::Constants::fast_a_bits, crate::proofs::Constants::fast_b_bits,), unfolding(crate::specs::Filter::tan_dirty, crate::specs::Filter::tan_fast),)]
pub fn tan(f: f32, approximation: FrequencyApproximation) -> f32
    ensures { result ≡ tan_of approximation f }
{
    match approximation {
        FrequencyApproximation::Dirty => f * (M_PI_F + DIRTY_A * f * f),
        FrequencyApproximation::Fast => {
            let f2 = f * f;
            f * (M_PI_F + f2 * (FAST_A + FAST_B * f2))
        }
    }
}

#[derive(Clone, Copy)]
pub struct Svf {
    pub g: f32,
    pub r: f32,
    pub h: f32,
    pub state_1: f32,
    pub state_2: f32,
}

impl Svf {
    #[tactic(auto, unfolding(crate::specs::Filter::svf_new))]
    pub fn new() -> Svf
        ensures { result ≡ svf_new }
    {
        Svf {
            g: 0.0,
            r: 0.0,
            h: 0.0,
            state_1: 0.0,
            state_2: 0.0,
        }
    }

    #[tactic(auto, unfolding(crate::specs::Filter::svf_init))]
    pub fn init(self) -> Svf
        ensures { result ≡ svf_init self }
    {
        self.set_f_q(0.01, 100.0, FrequencyApproximation::Dirty)
            .reset()
    }

    #[tactic(auto, unfolding(crate::specs::Filter::svf_reset))]
    pub fn reset(self) -> Svf
        ensures { result ≡ svf_reset self }
    {
        Svf {
            state_1: 0.0,
            state_2: 0.0,
            ..self
        }
    }

    #[tactic(auto, unfolding(crate::specs::Filter::svf_set_f_q))]
    pub fn set_f_q(self, f: f32, resonance: f32, approximation: FrequencyApproximation) -> Svf
        ensures { result ≡ svf_set_f_q self f resonance approximation }
    {
        let g = tan(f, approximation);
        let r = 1.0 / resonance;
        Svf {
            g,
            r,
            h: 1.0 / (1.0 + r * g + g * g),
            ..self
        }
    }

    // `process` at the low pass: the filter after a sample, and the sample that it gives.
    #[tactic(auto, unfolding(crate::specs::Filter::svf_process))]
    pub fn process(self, in_: f32) -> (Svf, f32)
        ensures { result ≡ svf_process self in_ }
    {
        let hp = (in_ - self.r * self.state_1 - self.g * self.state_1 - self.state_2) * self.h;
        let bp = self.g * hp + self.state_1;
        let lp = self.g * bp + self.state_2;
        let svf = Svf {
            state_1: self.g * hp + bp,
            state_2: self.g * bp + lp,
            ..self
        };
        (svf, lp)
    }

    // `process_buffer` at the low pass: the frames that both buffers have. `process_low` of a mode is another loop of the Rust, which adds what it gives.
    pub fn process_buffer(self, in_: &[f32], out: &mut [f32]) -> Svf
        ensures { (result, out.new) ≡ svf_process_buffer self in_.now out.old }
    {
        let n = in_.len().min(out.len());
        let mut svf = self;
        // by index: a proof knows nothing of what a zip with `iter_mut` wrote
        for i in 0..n {
            let (after, given) = svf.process(in_[i]);
            out[i] = given;
            svf = after;
        }
        svf
    }
}
