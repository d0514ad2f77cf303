// The early bag store at its edges.
use crate::asked::*;
use crate::rehearse;
use baggage::Lanes;
use station::Station;

#[test]
fn first_state(rt: HostRuntime) {
    let lanes = Lanes::new();
    for lane in 0..16 {
        assert_eq!(rt; lanes.count(lane), Some(0));
        assert_eq!(rt; lanes.flag(lane), Some(false));
    }
    for lane in 16..=u8::MAX {
        assert_eq!(rt; lanes.count(lane), None);
        assert_eq!(rt; lanes.flag(lane), None);
    }
}

#[test]
fn two_hundred_bags(rt: HostRuntime) {
    let mut lanes = Lanes::new();
    performs(&rt, &mut lanes, &[(1, 15, None), (3, 15, None)]);
    performs(&rt, &mut lanes, &[(0, 15, Some(0)); 200]);
    performs(&rt, &mut lanes, &[(0, 15, None), (2, 15, Some(200))]);
    lanes.take_back(act(1, 15), 0);
    assert_eq!(rt;
        lanes.count(15),
        Some(200),
        "taking back a give raises only a count under 200"
    );
    performs(
        &rt,
        &mut lanes,
        &[
            (1, 15, Some(0)),
            (3, 15, Some(0)),
            (2, 15, Some(198)),
            (2, 14, Some(0)),
        ],
    );
}

#[test]
fn taken_back(rt: HostRuntime) {
    let mut lanes = Lanes::new();
    lanes.take_back(act(0, 3), 0);
    assert_eq!(rt;
        lanes.count(3),
        Some(0),
        "taking back a take lowers only a count over 0"
    );
    assert_eq!(rt; rehearse(&mut lanes, act(0, 3)), Some(0));
    assert_eq!(rt; lanes.count(3), Some(0));
    performs(&rt, &mut lanes, &[(0, 3, Some(0)), (4, 3, Some(0))]);
    assert_eq!(rt; rehearse(&mut lanes, act(1, 3)), Some(0));
    assert_eq!(rt; rehearse(&mut lanes, act(2, 3)), Some(1));
    assert_eq!(rt; lanes.count(3), Some(1));
}

#[test]
fn not_taken_back(rt: HostRuntime) {
    let mut lanes = Lanes::new();
    performs(&rt, &mut lanes, &[(0, 3, Some(0))]);
    assert_eq!(rt; rehearse(&mut lanes, act(4, 3)), Some(0));
    assert_eq!(rt;
        lanes.flag(3),
        Some(true),
        "taking back a flag does nothing"
    );
    assert_eq!(rt; rehearse(&mut lanes, act(3, 3)), Some(0));
    assert_eq!(rt; lanes.count(3), Some(0), "a sent bag does not come back");
}

#[test]
fn no_such_lane(rt: HostRuntime) {
    let mut lanes = Lanes::new();
    for lane in [16, 17, 255, 256, 65535] {
        performs(
            &rt,
            &mut lanes,
            &[
                (0, lane, None),
                (1, lane, None),
                (2, lane, Some(0)),
                (3, lane, None),
                (4, lane, Some(0)),
            ],
        );
        lanes.take_back(act(1, lane), 0);
    }
    assert_eq!(rt; lanes.count(0), Some(0));
    assert_eq!(rt; lanes.flag(0), Some(false));
}

#[test]
fn no_such_activity(rt: HostRuntime) {
    let mut lanes = Lanes::new();
    for n in 5..=u8::MAX {
        assert_eq!(rt; lanes.perform(act(n, 0)), None);
        lanes.take_back(act(n, 0), 1);
    }
    assert_eq!(rt; lanes.count(0), Some(0));
    assert_eq!(rt; lanes.flag(0), Some(false));
}
