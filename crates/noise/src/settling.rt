// A filter over a block that ends in silence: there it comes round to what it was, and gives the same again.
ghost use Rattle.std.specs.Prelude.{◌≡◌};
ghost use Rattle.noise.specs.Settling.{SilentFrom, filtered, quiet, Settles};
ghost use Rattle.ground.specs.Frames.{after};

use crate::ahead::Filter;

// A filter before the frame `frame`, where it is what it was `period` frames before. Where it has not come round it stands at the block's end.
#[derive(Clone, Copy)]
pub struct Settled<F> {
    pub filter: F,
    pub frame: usize,
    pub period: usize,
}

// From which frame on a block is silent.
pub fn silent_from(xs: &[f32]) -> usize
    ensures { SilentFrom result xs.now }
{
    let mut m = 0;
    for i in 0..xs.len() {
        if !ground::bits::same(xs[i], 0.0) {
            m = i + 1;
        }
    }
    m
}

// The filter from frame to frame, until from the frame m on it is what it was.
fn until_settled<F: Filter>(f: F, xs: &[f32], m: usize, ys: &mut [f32]) -> Settled<F>
    ensures { Settles F.step f xs.now m ys.old result ys.new }
{
    let n = xs.len().min(ys.len());
    let mut filter = f;
    let mut anchor = f;
    let mut at = 0;
    // by index: a proof knows nothing of what a zip with `iter_mut` wrote
    for i in 0..n {
        if (i == m) | (i % 64 == 0) {
            anchor = filter;
            at = i;
        }
        let (after, given) = filter.step(xs[i]);
        ys[i] = given;
        filter = after;
        if at >= m && after.is(anchor) {
            return Settled {
                filter,
                frame: i + 1,
                period: i + 1 - at,
            };
        }
    }
    Settled {
        filter,
        frame: n,
        period: 1,
    }
}

// A filter after n frames of silence.
fn in_silence<F: Filter>(f: F, n: usize) -> F
    ensures { result ≡ after (quiet F.step) n f }
{
    let mut filter = f;
    for _ in 0..n {
        filter = filter.step(0.0).0;
    }
    filter
}

// A filter over a block that is silent from the frame m on.
pub fn settle<F: Filter>(f: F, xs: &[f32], m: usize, ys: &mut [f32]) -> F
    requires { SilentFrom m xs.now }
    ensures { (result, ys.new) ≡ filtered F.step f xs.now ys.old }
{
    let n = xs.len().min(ys.len());
    let s = until_settled(f, xs, m, ys);
    for i in s.frame..n {
        ys[i] = ys[i - s.period];
    }
    in_silence(s.filter, (n - s.frame) % s.period)
}
