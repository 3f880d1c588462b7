//! Serial numbers on both sides of the end.

use amqp_serial::Serial;

const LAST: u32 = 4294967295;

const HALF: u32 = 2147483648;

#[test]
fn orders_across_the_end(rt: HostRuntime) {
    for (a, b, is_before) in [
        (LAST, 0, true),
        (0, LAST, false),
        (0, HALF, false),
        (HALF, 0, false),
    ] {
        assert_eq!(rt; Serial(a).is_before(Serial(b)), is_before, "{a} {b}");
    }
    assert_eq!(rt; Serial(LAST).add(1), Serial(0));
    assert_eq!(rt; Serial(LAST).distance(Serial(0)), 1);
}

#[test]
fn ranges_across_the_end(rt: HostRuntime) {
    for (n, first, last, is_in) in [(0, LAST, 0, true), (1, LAST, 0, false), (5, 7, 5, false)] {
        assert_eq!(rt;
            Serial(n).in_range(Serial(first), Serial(last)),
            is_in,
            "{n}"
        );
    }
}
