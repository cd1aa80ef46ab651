//! Access lists: the faults of a text.
use mq_acl::{Acl, AclFault, AclKind};
use std::alloc::Global;

fn fault(alloc: Global, text: &str) -> Option<AclFault> {
    Acl::read(alloc, text).err()
}

#[test]
fn access_list_faults(rt: HostRuntime) {
    let cases = [
        ("allow a", 1, AclKind::Keyword),
        ("topic a b", 1, AclKind::Access),
        ("topic", 1, AclKind::Topic),
        ("topic read a+", 1, AclKind::Topic),
        ("user", 1, AclKind::User),
        ("pattern read x%u", 1, AclKind::Pattern),
        ("pattern read +%u", 1, AclKind::Topic),
        ("# c\n\ntopic a b", 3, AclKind::Access),
    ];
    for (text, line, kind) in cases {
        let wanted = Some(AclFault { line, kind });
        assert!(rt; fault(rt.alloc(), text) == wanted, "{text:?}");
    }
}
