// A filter as another crate could write it, a `Filter` and no `Same`: what it gives a frame ahead and when it settles; and which two of the filter here are the same.
ghost use Rattle.ground.specs.F32.{◌⊕◌};

use crate::ahead::{Filter, Passed, Same};
use crate::settling::{settle, silent_from};
use utils::filter::Svf;

// A running sum.
#[derive(Clone, Copy)]
struct Sum {
    total: f32,
}

impl Filter for Sum {
    ghost step = { λ s x. let y = s.total ⊕ x in (record { total = y }, y) };

    fn step(self, x: f32) -> (Sum, f32) {
        let y = self.total + x;
        (Sum { total: y }, y)
    }

    fn is(self, other: Sum) -> bool {
        ground::bits::same(self.total, other.total)
    }
}

#[test]
fn sum_goes_ahead(rt: HostRuntime) {
    let xs = [1.0, 2.0, 4.0];
    let first = Passed::first(Sum { total: 0.5 }, &xs);
    assert!(rt; first.out == 1.5);
    assert!(rt; !first.stands);
    let second = first.on(&xs, 0);
    assert!(rt; second.out == 3.5);
    assert!(rt; !second.stands);
    let third = second.on(&xs, 1);
    assert!(rt; third.out == 7.5);
    let past = third.on(&xs, 2);
    assert!(rt; past.filter.total == 7.5);
    assert!(rt; past.out == 0.0);
    assert!(rt; !past.stands);
}

// Where whoever calls says of a filter that it stands, the filter is asked all the same.
#[test]
fn sum_said_to_stand_goes_on(rt: HostRuntime) {
    let said = Passed {
        filter: Sum { total: 1.0 },
        out: 9.0,
        stands: true,
    };
    let next = said.on(&[2.0, 2.0], 0);
    assert!(rt; next.out == 3.0);
    assert!(rt; next.filter.total == 3.0);
    assert!(rt; Passed::pass(next.filter, 4.0).out == 7.0);
}

#[test]
fn sum_settles(rt: HostRuntime) {
    let xs = [1.0, 0.0, 0.0, 0.0];
    let mut ys = [0.0, 0.0, 0.0, 0.0];
    let after = settle(Sum { total: 2.0 }, &xs, silent_from(&xs), &mut ys);
    assert!(rt; after.total == 3.0);
    assert!(rt; ys[0] == 3.0);
    assert!(rt; ys[3] == 3.0);
}

#[test]
fn svf_is_itself_alone(rt: HostRuntime) {
    let s = Svf::new();
    let other = Svf { state_2: 0.5, ..s };
    assert!(rt; s.is(s));
    assert!(rt; !s.is(other));
    assert!(rt; s.is_same(s));
    assert!(rt; !other.is_same(s));
}
