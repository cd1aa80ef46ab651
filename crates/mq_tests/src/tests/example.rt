//! The router as a library.
use mq_example::sent;

#[test]
fn a_client_is_sent_what_it_publishes(rt: HostRuntime) {
    assert!(rt; sent(rt.alloc()) == Ok(1));
}
