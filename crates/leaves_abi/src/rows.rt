// A struct that crosses as a lent slice of its fields, in the order of its declaration.
ghost use Rattle.std.specs.Prelude.{◌≡◌, Float};
ghost use Rattle.leaves_abi.specs.Rows.{Fields, svf_row, dc_row, interpolator_row, oscillator_row, from_fields, into};

use utils::cosine_oscillator::CosineOscillator;
use utils::filter::{DcBlocker, Svf};
use utils::parameter_interpolator::ParameterInterpolator;

pub trait Row: Copy {
    ghost row: { Fields Float Self };

    // The struct of a slice of its length.
    fn get(xs: &[f32]) -> Option<Self>
        ensures { result ≡ from_fields row xs.now };

    // Put into a slice of its length; any other stays.
    fn put(self, xs: &mut [f32])
        ensures { xs.new ≡ into row self xs.old };
}

impl Row for Svf {
    ghost row = { svf_row };

    #[tactic(auto, unfolding(crate::specs::Rows::from_fields, crate::specs::Rows::svf_row))]
    fn get(xs: &[f32]) -> Option<Svf> {
        match *xs {
            [g, r, h, state_1, state_2] => Some(Svf {
                g,
                r,
                h,
                state_1,
                state_2,
            }),
            _ => None,
        }
    }

    #[tactic(auto, unfolding(crate::specs::Rows::on_fields, crate::specs::Rows::svf_row))]
    fn put(self, xs: &mut [f32]) {
        if xs.len() == 5 {
            xs.copy_from_slice(&[self.g, self.r, self.h, self.state_1, self.state_2]);
        }
    }
}

impl Row for DcBlocker {
    ghost row = { dc_row };

    #[tactic(auto, unfolding(crate::specs::Rows::from_fields, crate::specs::Rows::dc_row))]
    fn get(xs: &[f32]) -> Option<DcBlocker> {
        match *xs {
            [pole, x, y] => Some(DcBlocker { pole, x, y }),
            _ => None,
        }
    }

    #[tactic(auto, unfolding(crate::specs::Rows::on_fields, crate::specs::Rows::dc_row))]
    fn put(self, xs: &mut [f32]) {
        if xs.len() == 3 {
            xs.copy_from_slice(&[self.pole, self.x, self.y]);
        }
    }
}

impl Row for ParameterInterpolator {
    ghost row = { interpolator_row };

    #[tactic(auto, unfolding(crate::specs::Rows::from_fields, crate::specs::Rows::interpolator_row))]
    fn get(xs: &[f32]) -> Option<ParameterInterpolator> {
        match *xs {
            [value, increment] => Some(ParameterInterpolator { value, increment }),
            _ => None,
        }
    }

    #[tactic(auto, unfolding(crate::specs::Rows::on_fields, crate::specs::Rows::interpolator_row))]
    fn put(self, xs: &mut [f32]) {
        if xs.len() == 2 {
            xs.copy_from_slice(&[self.value, self.increment]);
        }
    }
}

impl Row for CosineOscillator {
    ghost row = { oscillator_row };

    #[tactic(auto, unfolding(crate::specs::Rows::from_fields, crate::specs::Rows::oscillator_row))]
    fn get(xs: &[f32]) -> Option<CosineOscillator> {
        match *xs {
            [y1, y0, iir_coefficient, initial_amplitude] => Some(CosineOscillator {
                y1,
                y0,
                iir_coefficient,
                initial_amplitude,
            }),
            _ => None,
        }
    }

    #[tactic(auto, unfolding(crate::specs::Rows::on_fields, crate::specs::Rows::oscillator_row))]
    fn put(self, xs: &mut [f32]) {
        if xs.len() == 4 {
            xs.copy_from_slice(&[
                self.y1,
                self.y0,
                self.iir_coefficient,
                self.initial_amplitude,
            ]);
        }
    }
}
