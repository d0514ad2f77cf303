// The catalogues and the constants, over all numbers.
use baggage::{Lanes, Register};
use station::{Pair, Renumbering, Station};
use std::process::Abort;

// Of all numbers, exactly the pairs conflict, either way round.
fn conflicts_are<S: Station>(rt: &impl Abort, subject: &S, pairs: &[(u8, u8)]) {
    for a in 0..=u8::MAX {
        for b in 0..=u8::MAX {
            assert_eq!(rt;
                subject.conflict(a, b),
                pairs.contains(&(a, b)) || pairs.contains(&(b, a))
            );
        }
    }
}

// Of all numbers, exactly these are compensatable, and these retriable.
fn kinds_are<S: Station>(rt: &impl Abort, subject: &S, compensatable: &[u8], retriable: &[u8]) {
    for n in 0..=u8::MAX {
        assert_eq!(rt; subject.compensatable(n), compensatable.contains(&n));
        assert_eq!(rt; subject.retriable(n), retriable.contains(&n));
    }
}

// How many activities this kind of station has.
fn count_is<S: Station>(rt: &impl Abort, count: u32) {
    assert_eq!(rt; S::ACTIVITIES, count);
}

#[test]
fn lanes_catalogue(rt: HostRuntime) {
    let lanes = Lanes::new();
    conflicts_are(&rt, &lanes, &[(0, 1), (0, 2), (0, 3), (1, 2), (2, 3)]);
    kinds_are(&rt, &lanes, &[0, 1, 2], &[2, 4]);
}

#[test]
fn register_catalogue(rt: HostRuntime) {
    let register = Register::new();
    conflicts_are(&rt, &register, &[(0, 1), (0, 2), (0, 3), (1, 2)]);
    kinds_are(&rt, &register, &[0, 1, 2], &[2, 4]);
}

#[test]
fn pair_catalogue(rt: HostRuntime) {
    let pair = Pair::new(Lanes::new(), Register::new());
    conflicts_are(
        &rt,
        &pair,
        &[
            (0, 1),
            (0, 2),
            (0, 3),
            (1, 2),
            (2, 3),
            (32, 33),
            (32, 34),
            (32, 35),
            (33, 34),
        ],
    );
    kinds_are(&rt, &pair, &[0, 1, 2, 32, 33, 34], &[2, 4, 34, 36]);
}

#[test]
fn renumbering_catalogue(rt: HostRuntime) {
    let lanes = Renumbering::new(Lanes::new(), 7);
    conflicts_are(&rt, &lanes, &[(0, 1), (0, 2), (0, 3), (1, 2), (2, 3)]);
    kinds_are(&rt, &lanes, &[0, 1, 2], &[2, 4]);
}

#[test]
fn four_constants(rt: HostRuntime) {
    count_is::<Lanes>(&rt, 5);
    count_is::<Register>(&rt, 5);
    count_is::<Pair<Lanes, Register>>(&rt, 64);
    count_is::<Renumbering<Lanes>>(&rt, 5);
    count_is::<Renumbering<Pair<Register, Lanes>>>(&rt, 64);
}

#[test]
fn which_exist(rt: HostRuntime) {
    let lanes = Lanes::new();
    assert!(rt; lanes.exists(4));
    assert!(rt; !lanes.exists(5));
    let pair = Pair::new(lanes, Register::new());
    assert!(rt; pair.exists(5));
    assert!(rt; pair.exists(63));
    assert!(rt; !pair.exists(64));
    assert!(rt; !pair.exists(255));
}
