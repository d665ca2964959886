// The excitation filter, whether it goes around subnormal products or not: a step worked out by hand, and that it is found the same as itself alone.
use crate::modal_voice::LowPass;
use modes::resonator::{Mode, ResonatorSvf};
use noise::ahead::{Filter, Passed, Same};

// hp = (1 - 0 - 0.25) * 0.5, bp = 0.5 * hp, lp = 0.5 * bp + 0.25, and twice lp is given.
#[test]
fn low_pass_steps(rt: HostRuntime) {
    let mode = Mode {
        g: 0.5,
        r_plus_g: 1.0,
        h: 0.5,
        gain: 2.0,
    };
    let svf = ResonatorSvf {
        state_1: 0.0,
        state_2: 0.25,
    };
    let plain: LowPass<false> = LowPass { mode, svf };
    let around: LowPass<true> = LowPass { mode, svf };
    assert!(rt; plain.step(1.0).1 == 0.6875);
    assert!(rt; around.step(1.0).1 == 0.6875);
    let passed = Passed::pass(plain, 1.0);
    assert!(rt; passed.out == 0.6875);
    assert!(rt; passed.filter.svf.state_1 == 0.375);
    assert!(rt; passed.filter.svf.state_2 == 0.4375);
    assert!(rt; plain.is(plain));
    assert!(rt; around.is(around));
    assert!(rt; !plain.is(passed.filter));
    assert!(rt; plain.is_same(plain));
    assert!(rt; !passed.filter.is_same(plain));
}
