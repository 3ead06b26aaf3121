//! Tests of the allocator `Refusing`: which requests it refuses, and what it counts.
use crate::check;
use thin_testing::Refusing;

#[test]
fn counts_live_blocks(rt: HostRuntime) {
    let refusing = Refusing::new(rt.alloc(), 0);
    let mut one = Vec::new(&refusing);
    check!(rt; counts(&refusing, 0, 0));
    check!(rt; one.push(1_u8));
    check!(rt; counts(&refusing, 1, 1));
    check!(rt; same(refusing.lent(), refusing.bytes()));
    check!(rt; one.reserve(1000));
    check!(rt; counts(&refusing, 2, 1));
    check!(rt; same(refusing.lent() > refusing.bytes(), true));
    refusing.refuse(1);
    let mut other = Vec::new(&refusing);
    check!(rt; same(other.push(2_u8).is_ok(), false));
    check!(rt; counts(&refusing, 1, 1));
    check!(rt; same(refusing.lent(), 0));
    check!(rt; other.push(2));
    check!(rt; counts(&refusing, 2, 2));
    drop(one);
    drop(other);
    check!(rt; counts(&refusing, 2, 0));
}

#[test]
fn refuses_only_the_nth_request(rt: HostRuntime) {
    for refused in 1..9 {
        let refusing = Refusing::new(rt.alloc(), refused);
        let mut kept = Vec::new(rt.alloc());
        for request in 1..10 {
            let mut one = Vec::new(&refusing);
            let answer = (refused, request, one.push(request).is_ok());
            check!(rt; same(answer, (refused, request, request != refused)));
            check!(rt; kept.push(one));
        }
        check!(rt; counts(&refusing, 9, 8));
        let twin = check!(rt; refusing.clone());
        for request in 1..10 {
            check!(rt; same((request, twin.request().is_ok()), (request, true)));
        }
        check!(rt; counts(&refusing, 10, 8));
    }
}
