//! Topic names and subscription texts: the faults of a text.
use mq_topic::{SubFilter, TopicFault, TopicName};
use std::alloc::Global;

fn name_fault(alloc: Global, text: &str) -> Option<TopicFault> {
    TopicName::parse(alloc, text).err()
}

fn subscription_fault(alloc: Global, text: &str) -> Option<TopicFault> {
    SubFilter::parse(alloc, text).err()
}

#[test]
fn faults_of_names(rt: HostRuntime) {
    let cases = [
        ("a", 65_536, TopicFault::TooLong),
        ("/", 200, TopicFault::Levels),
        ("", 1, TopicFault::Empty),
        ("a+", 1, TopicFault::Wildcard),
        ("a\0", 1, TopicFault::Nul),
    ];
    for (text, times, fault) in cases {
        let name = text.repeat(rt.alloc(), times).expect(&rt, "memory");
        assert!(rt;
            name_fault(rt.alloc(), name.as_str()) == Some(fault),
            "{text}"
        );
    }
}

#[test]
fn faults_of_subscriptions(rt: HostRuntime) {
    let cases = [
        ("$share//t", TopicFault::Share),
        ("$share/g", TopicFault::Share),
        ("$share/g/", TopicFault::Share),
        ("$share/+/t", TopicFault::Share),
        ("$share/g/a#", TopicFault::Wildcard),
        ("a/#/b", TopicFault::Wildcard),
        ("sport+", TopicFault::Wildcard),
    ];
    for (text, fault) in cases {
        assert!(rt;
            subscription_fault(rt.alloc(), text) == Some(fault),
            "{text}"
        );
    }
}
