//! Messages in an outbox, of two types.
//! What has many parts is let go of by `drop`, which the prover takes as one step.
use cd_actor::Outbox;

#[test]
fn messages_are_taken_once_in_the_order_in_which_they_came(rt: HostRuntime) {
    let mut outbox = Outbox::new(rt.alloc());
    for message in 0..3u8 {
        outbox.put(9, message).expect(&rt, "memory");
    }
    assert!(rt; outbox.len() == 3);
    for message in 0..3u8 {
        assert!(rt; outbox.take() == Some((9, message)));
    }
    assert!(rt; outbox.take() == None);
    assert!(rt; outbox.len() == 0);
    drop(outbox);
}

#[test]
fn the_others_keep_their_order(rt: HostRuntime) {
    let mut outbox = Outbox::new(rt.alloc());
    outbox.put(4, 'a').expect(&rt, "memory");
    outbox.put(5, 'b').expect(&rt, "memory");
    outbox.put(6, 'c').expect(&rt, "memory");
    assert!(rt; outbox.take_at(1) == Some((5, 'b')));
    assert!(rt; outbox.take() == Some((4, 'a')));
    assert!(rt; outbox.take() == Some((6, 'c')));
    drop(outbox);
}
