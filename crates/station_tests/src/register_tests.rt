// The register at its edges. A parameter is bag x 16 + stand: 4095 is bag 255 with stand 15, and 37 bag 2 with stand 5.
use crate::asked::*;
use crate::rehearse;
use baggage::Register;
use station::Station;

#[test]
fn first_state(rt: HostRuntime) {
    let register = Register::new();
    for bag in 0..=u8::MAX {
        assert_eq!(rt; register.stand(bag), None);
        assert!(rt; !register.sealed(bag));
        assert!(rt; !register.reported(bag));
    }
}

#[test]
fn entered_and_struck(rt: HostRuntime) {
    let mut register = Register::new();
    // 0 is no stand; an absent bag is not struck; looking tells 0
    performs(
        &rt,
        &mut register,
        &[(0, 4080, None), (1, 4080, None), (2, 4083, Some(0))],
    );
    // a bag that is present is not entered again
    performs(
        &rt,
        &mut register,
        &[
            (0, 4095, Some(0)),
            (0, 4084, None),
            (2, 4083, Some(15)),
            (1, 4082, Some(15)),
        ],
    );
    assert_eq!(rt; register.stand(255), None);
    register.take_back(act(1, 4082), 15);
    assert_eq!(rt; register.stand(255), Some(15));
    assert_eq!(rt; register.stand(254), None);
}

#[test]
fn sealed_and_reported(rt: HostRuntime) {
    let mut register = Register::new();
    // an absent bag is not sealed, and can be reported
    performs(
        &rt,
        &mut register,
        &[
            (3, 32, None),
            (4, 32, Some(0)),
            (0, 37, Some(0)),
            (3, 33, Some(5)),
        ],
    );
    // a sealed one is neither sealed again nor struck
    performs(
        &rt,
        &mut register,
        &[(3, 33, None), (1, 33, None), (2, 33, Some(5))],
    );
    register.take_back(act(3, 33), 5);
    assert!(rt; register.sealed(2), "taking back a seal does nothing");
    register.take_back(act(0, 37), 0);
    assert_eq!(rt; register.stand(2), None);
    assert!(rt; register.sealed(2));
    assert!(rt; register.reported(2));
}

#[test]
fn taken_back(rt: HostRuntime) {
    let mut register = Register::new();
    assert_eq!(rt; rehearse(&mut register, act(0, 37)), Some(0));
    assert_eq!(rt; register.stand(2), None);
    performs(&rt, &mut register, &[(0, 37, Some(0))]);
    assert_eq!(rt; rehearse(&mut register, act(1, 32)), Some(5));
    assert_eq!(rt; register.stand(2), Some(5));
}

#[test]
fn taken_back_with_any_answer(rt: HostRuntime) {
    let mut register = Register::new();
    register.take_back(act(1, 32), 4294967295);
    assert_eq!(rt; register.stand(2), Some(15));
    register.take_back(act(2, 32), 3);
    assert_eq!(rt;
        register.stand(2),
        Some(15),
        "taking back a look does nothing"
    );
    register.take_back(act(1, 32), 16);
    assert_eq!(rt; register.stand(2), None, "16 is 0 modulo 16");
}

#[test]
fn no_such_bag(rt: HostRuntime) {
    let mut register = Register::new();
    for p in [4096, 4097, 8191, 65535] {
        performs(
            &rt,
            &mut register,
            &[
                (0, p, None),
                (1, p, None),
                (2, p, Some(0)),
                (3, p, None),
                (4, p, Some(0)),
            ],
        );
        register.take_back(act(1, p), 3);
    }
    assert_eq!(rt; register.stand(0), None);
    assert_eq!(rt; register.stand(255), None);
    assert!(rt; !register.reported(255));
}
