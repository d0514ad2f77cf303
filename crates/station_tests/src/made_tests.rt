// Pair and Renumbering: which station an activity reaches, and with which parameter.
use crate::asked::*;
use baggage::{Lanes, Register};
use station::{Pair, Renumbering, Station};

#[test]
fn halves(rt: HostRuntime) {
    let mut pair = Pair::new(Lanes::new(), Register::new());
    performs(
        &rt,
        &mut pair,
        &[(0, 3, Some(0)), (32, 37, Some(0)), (33, 32, Some(5))],
    );
    pair.take_back(act(33, 32), 5);
    assert_eq!(rt; pair.first().count(3), Some(1));
    assert_eq!(rt; pair.second().stand(2), Some(5));
    let (mut lanes, register) = pair.into_parts();
    assert_eq!(rt; lanes.perform(act(1, 3)), Some(0));
    assert_eq!(rt; register.stand(2), Some(5));
}

#[test]
fn numbers_that_nothing_uses(rt: HostRuntime) {
    let mut pair = Pair::new(Lanes::new(), Register::new());
    for n in [5, 31, 37, 63, 64, 96, 255] {
        assert_eq!(rt; pair.perform(act(n, 0)), None);
        pair.take_back(act(n, 0), 1);
        assert!(rt; !pair.conflict(n, 0));
        assert!(rt; !pair.conflict(32, n));
    }
    assert_eq!(rt; pair.first().count(0), Some(0));
    assert_eq!(rt; pair.second().stand(0), None);
}

#[test]
fn tags_wrap_around(rt: HostRuntime) {
    let mut lanes = Renumbering::new(Lanes::new(), 65435);
    assert_eq!(rt; lanes.offset(), 65435);
    performs(
        &rt,
        &mut lanes,
        &[
            (0, 101, Some(0)),
            (4, 116, Some(0)),
            (0, 100, None),
            (0, 117, None),
            (0, 0, None),
        ],
    );
    assert_eq!(rt; lanes.inner().count(0), Some(1));
    assert_eq!(rt; lanes.inner().flag(15), Some(true));
    lanes.take_back(act(0, 101), 0);
    let below = lanes.into_inner();
    assert_eq!(rt; below.count(0), Some(0));
}

#[test]
fn renumbered_twice(rt: HostRuntime) {
    let mut lanes = Renumbering::new(Renumbering::new(Lanes::new(), 65535), 2);
    assert_eq!(rt; lanes.perform(act(0, 4)), Some(0));
    assert_eq!(rt; lanes.inner().inner().count(5), Some(1));
}
