//! Who may read and write a topic under an access list, or under none.
ghost use Rattle.std.specs.Prelude.{◌≡◌};
ghost use Rattle.std.specs.Option.{option_copied};
ghost use Rattle.mq_acl.specs.AccessLists.{allowed};
ghost use Rattle.mq_acl.specs.declared.access.Direction.TheVariants.{Reading, Writing};

use crate::acl::Acl;
use mq_topic::TopicName;

/// Whether the client may read the topic. Without a list every client may.
#[tactic(auto, unfolding(crate::specs::AccessLists::allowed))]
pub fn may_read(access: &Option<Acl>, client: &str, user: Option<&str>, name: &TopicName) -> bool
    ensures { result ≡ allowed access.now client.now (option_copied user.entry) name.now Reading }
{
    match access {
        None => true,
        Some(acl) => acl.may_read(client, user, name),
    }
}

/// Whether the client may write the topic. Without a list every client may.
#[tactic(auto, unfolding(crate::specs::AccessLists::allowed))]
pub fn may_write(access: &Option<Acl>, client: &str, user: Option<&str>, name: &TopicName) -> bool
    ensures { result ≡ allowed access.now client.now (option_copied user.entry) name.now Writing }
{
    match access {
        None => true,
        Some(acl) => acl.may_write(client, user, name),
    }
}
