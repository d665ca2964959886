// Cosine oscillator: a cosine between 0.0 and 1.0, by the approximate coefficient.
ghost use Rattle.std.specs.Prelude.{◌≡◌};
ghost use Rattle.utils.specs.CosineOscillator.{with_coefficient, init_approximate, osc_start, osc_init, osc_next};
ghost use Rattle.utils.specs.Amplitudes.{amplitudes_of};

#[derive(Clone, Copy)]
pub struct CosineOscillator {
    pub y1: f32,
    pub y0: f32,
    pub iir_coefficient: f32,
    pub initial_amplitude: f32,
}

impl CosineOscillator {
    // The frequency's distance from a quarter, and the sign of the coefficient.
    #[tactic(auto, unfolding(crate::specs::CosineOscillator::with_coefficient))]
    fn with_coefficient(self, sign: f32, frequency: f32) -> CosineOscillator
        ensures { result ≡ with_coefficient self sign frequency }
    {
        let iir_coefficient = sign * frequency * (1.0 - 2.0 * frequency);
        CosineOscillator {
            iir_coefficient,
            initial_amplitude: iir_coefficient * 0.25,
            ..self
        }
    }

    #[tactic(auto, unfolding(crate::specs::CosineOscillator::init_approximate))]
    fn init_approximate(self, frequency: f32) -> CosineOscillator
        ensures { result ≡ init_approximate self frequency }
    {
        let f = frequency - 0.25;
        if f < 0.0 {
            self.with_coefficient(16.0, -f)
        } else if f > 0.5 {
            self.with_coefficient(16.0, f - 0.5)
        } else {
            self.with_coefficient(-16.0, f)
        }
    }

    #[tactic(auto, unfolding(crate::specs::CosineOscillator::osc_start))]
    fn start(self) -> CosineOscillator
        ensures { result ≡ osc_start self }
    {
        CosineOscillator {
            y1: self.initial_amplitude,
            y0: 0.5,
            ..self
        }
    }

    // `new` and `init` at the approximate mode.
    #[tactic(auto, unfolding(crate::specs::CosineOscillator::osc_init))]
    pub fn init(frequency: f32) -> CosineOscillator
        ensures { result ≡ osc_init frequency }
    {
        let new = CosineOscillator {
            y1: 0.0,
            y0: 0.0,
            iir_coefficient: 0.0,
            initial_amplitude: 0.0,
        };
        new.init_approximate(frequency).start()
    }

    // The oscillator after a step, and what the step gives.
    #[tactic(auto, unfolding(crate::specs::CosineOscillator::osc_next))]
    pub fn next(self) -> (CosineOscillator, f32)
        ensures { result ≡ osc_next self }
    {
        let oscillator = CosineOscillator {
            y1: self.y0,
            y0: self.iir_coefficient * self.y0 - self.y1,
            ..self
        };
        (oscillator, self.y0 + 0.5)
    }
}

// The 24 amplitudes of `Resonator::init` at a position.
pub fn amplitudes(position: f32) -> [f32; 24]
    ensures { result ≡ amplitudes_of position }
{
    let mut mode_amplitude = [0.0; 24];
    let mut oscillator = CosineOscillator::init(position);
    for amplitude in mode_amplitude.iter_mut() {
        let (after, out) = oscillator.next();
        *amplitude = out * 0.25;
        oscillator = after;
    }
    mode_amplitude
}
