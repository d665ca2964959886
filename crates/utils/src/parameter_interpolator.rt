// Linear interpolation of parameters in rendering loops.
ghost use Rattle.std.specs.Prelude.{◌≡◌, ◌≤◌, ◌^◌};
ghost use Rattle.utils.specs.ParameterInterpolator.{interpolator_new, interpolator_next};

// The value goes on by its increment; whoever keeps the parameter stores the last value.
#[derive(Clone, Copy)]
pub struct ParameterInterpolator {
    pub value: f32,
    pub increment: f32,
}

impl ParameterInterpolator {
    #[tactic(auto, unfolding(crate::specs::ParameterInterpolator::interpolator_new))]
    pub fn new(state: f32, new_value: f32, size: usize) -> ParameterInterpolator
        requires { size ≤ 2 ^ 24 }
        ensures { result ≡ interpolator_new state new_value size }
    {
        ParameterInterpolator {
            value: state,
            increment: (new_value - state) / (size as f32),
        }
    }

    // The Rust's `next` gives the value that it moves to.
    #[tactic(auto, unfolding(crate::specs::ParameterInterpolator::interpolator_next))]
    pub fn next(self) -> ParameterInterpolator
        ensures { result ≡ interpolator_next self }
    {
        ParameterInterpolator {
            value: self.value + self.increment,
            ..self
        }
    }
}
