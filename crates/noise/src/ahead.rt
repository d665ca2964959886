// A filter that is a frame ahead of what it feeds, so that neither waits for the other.
ghost use Rattle.std.specs.Prelude.{◌≡◌, true, Bool, ◌+◌, ◌<◌, length, get_or, Float};
ghost use Rattle.std.specs.Float.{nan};
ghost use Rattle.utils.specs.Filter.{svf_step};
ghost use Rattle.noise.specs.Ahead.{pass_of, ahead_of, pass_compared_of, Stays, ahead_compared_of};
ghost use Rattle.noise.specs.SvfAhead.{svf_same};

use utils::filter::Svf;

// A filter of which is said what a step of it is, and that two of it that are found the same are one.
pub trait Filter: Copy {
    // The filter after a sample, and the sample that it gives.
    ghost step: { Self → Float → Self × Float };

    fn step(self, x: f32) -> (Self, f32)
        ensures { result ≡ step self x };

    // By bits: `==` takes 0.0 and -0.0 for one number, and a NaN for none.
    fn is(self, other: Self) -> bool
        ensures { result ≡ true → self ≡ other };
}

// A filter of which is said, too, which two of it are found the same.
pub trait Same: Filter {
    // Whether two filters are the same in every bit.
    ghost same: { Self → Self → Bool };

    fn is_same(self, other: Self) -> bool
        ensures { (result ≡ same self other) × (result ≡ true → self ≡ other) };
}

impl Filter for Svf {
    ghost step = { λ s x. svf_step s x nan };

    fn step(self, x: f32) -> (Svf, f32) {
        self.process(x)
    }

    fn is(self, other: Svf) -> bool
        ensures { (result ≡ svf_same self other) × (result ≡ true → self ≡ other) }
    {
        self.is_same(other)
    }
}

impl Same for Svf {
    ghost same = { svf_same };

    fn is_same(self, other: Svf) -> bool {
        ground::bits::same(self.state_1, other.state_1)
            && ground::bits::same(self.state_2, other.state_2)
            && ground::bits::same(self.g, other.g)
            && ground::bits::same(self.r, other.r)
            && ground::bits::same(self.h, other.h)
    }
}

// A filter past a sample, what it gave, and whether it is what it was before; there is a filter and a sample either way, so `stands` is no Option.
#[derive(Clone, Copy)]
pub struct Passed<F> {
    pub filter: F,
    pub out: f32,
    pub stands: bool,
}

impl<F: Filter> Passed<F> {
    // A sample through a filter, of which is not said that it stands. The compiler would leave it a call, which gives the filter through memory at each frame.
    #[inline(always)]
    pub fn pass(f: F, x: f32) -> Passed<F>
        ensures { result ≡ pass_of F.step f x }
    {
        let (after, given) = f.step(x);
        Passed {
            filter: after,
            out: given,
            stands: false,
        }
    }

    // A filter past the first frame.
    #[tactic(auto, unfolding(crate::specs::Ahead::ahead_of))]
    pub fn first(f: F, xs: &[f32]) -> Passed<F>
        ensures { result ≡ ahead_of F.step f xs.now 0 }
    {
        if 0 < xs.len() {
            Passed::pass(f, xs[0])
        } else {
            Passed {
                filter: f,
                out: 0.0,
                stands: false,
            }
        }
    }

    // The filter past the frame i + 1, where this is the filter past the frame i.
    #[tactic(auto, unfolding(crate::specs::Ahead::ahead_of))]
    pub fn on(self, xs: &[f32], i: usize) -> Passed<F>
        requires { i < length xs.now }
        ensures { result ≡ ahead_of F.step self.filter xs.now (i + 1) }
    {
        if i + 1 < xs.len() {
            Passed::pass(self.filter, xs[i + 1])
        } else {
            Passed {
                out: 0.0,
                stands: false,
                ..self
            }
        }
    }
}

impl<F: Same> Passed<F> {
    // `pass`, and whether the filter stands.
    #[inline(always)]
    pub fn pass_compared(f: F, x: f32) -> Passed<F>
        ensures { (result ≡ pass_compared_of F.step F.same f x) × Stays F.step F.same result x }
    {
        let (filter, out) = f.step(x);
        Passed {
            filter,
            out,
            stands: f.is_same(filter),
        }
    }

    // `pass_compared` of y behind that of x: where neither the filter nor the sample has changed, the same again. Where dust is seldom, that is most of a block.
    #[inline(always)]
    pub fn pass_on(self, x: f32, y: f32) -> Passed<F>
        requires { Stays F.step F.same self x }
        ensures { (result ≡ pass_compared_of F.step F.same self.filter y) × Stays F.step F.same result y }
    {
        if self.stands && ground::bits::same(x, y) {
            // by its fields: as a whole its padding goes through memory too, which takes the string a tenth
            Passed {
                stands: true,
                ..self
            }
        } else {
            Passed::pass_compared(self.filter, y)
        }
    }

    // `first`, and whether the filter stands.
    #[tactic(auto, unfolding(crate::specs::Ahead::ahead_compared_of))]
    pub fn first_compared(f: F, xs: &[f32]) -> Passed<F>
        ensures { (result ≡ ahead_compared_of F.step F.same f xs.now 0) × Stays F.step F.same result (get_or xs.now 0 nan) }
    {
        if 0 < xs.len() {
            Passed::pass_compared(f, xs[0])
        } else {
            Passed {
                filter: f,
                out: 0.0,
                stands: false,
            }
        }
    }

    // `on`, and whether the filter stands.
    #[tactic(auto, unfolding(crate::specs::Ahead::ahead_compared_of))]
    pub fn on_compared(self, xs: &[f32], i: usize) -> Passed<F>
        requires { Stays F.step F.same self (get_or xs.now i nan) × (i < length xs.now) }
        ensures { (result ≡ ahead_compared_of F.step F.same self.filter xs.now (i + 1)) × Stays F.step F.same result (get_or xs.now (i + 1) nan) }
    {
        if i + 1 < xs.len() {
            self.pass_on(xs[i], xs[i + 1])
        } else {
            Passed {
                out: 0.0,
                stands: false,
                ..self
            }
        }
    }
}
