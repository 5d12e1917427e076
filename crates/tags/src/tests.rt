// Examples of sums and of the order.
use crate::{HORIZON, Tag};

#[test]
fn sums(rt: HostRuntime) {
    let start = Tag::new(7, 3).unwrap();
    assert_eq!(rt; start.plus(0), Tag::new(7, 4));
    assert_eq!(rt; start.plus(5), Tag::new(12, 0));
    let early = Tag::new(0, 9).unwrap();
    assert_eq!(rt; early.plus(HORIZON), Tag::new(HORIZON, 0));
    let last = Tag::new(HORIZON, 0).unwrap();
    assert_eq!(rt; last.plus(0), Tag::new(HORIZON, 1));
}

#[test]
fn none_beyond_the_horizon(rt: HostRuntime) {
    assert_eq!(rt; Tag::new(HORIZON + 1, 0), None);
    let start = Tag::new(7, u16::MAX).unwrap();
    assert_eq!(rt; start.plus(0), None);
    let early = Tag::new(1, 0).unwrap();
    assert_eq!(rt; early.plus(u64::MAX), None);
    let last = Tag::new(HORIZON, 0).unwrap();
    assert_eq!(rt; last.plus(1), None);
}

#[test]
fn order(rt: HostRuntime) {
    let early = Tag::new(7, 9).unwrap();
    let late = Tag::new(8, 2).unwrap();
    let later = Tag::new(8, 3).unwrap();
    assert!(rt; early.is_before(&late));
    assert!(rt; late.is_before(&later));
    assert!(rt; !late.is_before(&late));
    assert!(rt; early.compare(&late).is_lt());
    assert!(rt; later.compare(&late).is_gt());
    assert!(rt; late.compare(&late).is_eq());
}
