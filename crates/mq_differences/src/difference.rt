ghost use Rattle.std.specs.Prelude.{◌≡◌, ◌&&◌, string_bytes};
ghost use Rattle.std.specs.Str.{bytes_eq};
ghost use Rattle.mq_acl.specs.Access.{begins_with_dollar};
ghost use Rattle.mq_differences.specs.Differences.{same_direction, same_class, same_reasons};
ghost use Rattle.mq_differences.specs.Differences.{is_like};
ghost use Rattle.mq_differences.specs.Differences.{same_start};

use crate::class::Class;
use crate::reason::Reason;
use crate::way::Way;
use mq_acl::Direction;
use mq_topic::{LevelText, TopicName};

/// A topic that a client may read or write by one list, and may not by another.
pub struct Difference {
    /// Which clients it is about.
    pub class: Class,
    /// Whether it is read or written.
    pub direction: Direction,
    /// Whether it is gained or lost.
    pub way: Way,
    /// The client id of one of these clients; its user name is `class.user()`.
    pub client: String,
    /// The topic.
    pub topic: TopicName,
    /// Those of the client id, the user name and the levels of the topic that stand for any others: no line of either
    /// list names them.
    pub placeholders: Vec<String>,
    /// What decides it in the old list.
    pub old_reason: Reason,
    /// What decides it in the new list.
    pub new_reason: Reason,
}

// Opaque to callers' proofs: one step, and not one for each field (docs/explanation/gate.md).
impl Drop for Difference {
    fn drop(self) {
        let Difference {
            class: _,
            direction: _,
            way: _,
            client: _,
            topic: _,
            placeholders: _,
            old_reason: _,
            new_reason: _,
        } = self;
    }
}

/// Whether both are reading, or both writing.
pub fn same_direction(left: Direction, right: Direction) -> bool
    ensures { result ≡ same_direction left right }
{
    match left {
        Direction::Reading => matches!(right, Direction::Reading),
        Direction::Writing => matches!(right, Direction::Writing),
    }
}

/// Whether both are the same class.
pub fn same_class(left: &Class, right: &Class) -> bool
    ensures { result ≡ same_class left.now right.now }
{
    match (left, right) {
        (Class::Anonymous, Class::Anonymous) => true,
        (Class::User(name), Class::User(other)) => name == other,
        (Class::Others(_), Class::Others(_)) => true,
        _ => false,
    }
}

fn begins_with_dollar(topic: &TopicName) -> bool
    ensures { result ≡ begins_with_dollar topic.now }
{
    topic.text().as_bytes().first() == Some(&b'$')
}

/// Whether both begin with `$`, or neither does.
pub fn same_start(left: &TopicName, right: &TopicName) -> bool
    ensures { result ≡ same_start left.now right.now }
{
    if begins_with_dollar(left) {
        begins_with_dollar(right)
    } else {
        !begins_with_dollar(right)
    }
}

impl Difference {
    /// Whether the same lines decide both.
    pub(crate) fn same_reasons(&self, other: &Difference) -> bool
        ensures { result ≡ same_reasons self.now other.now }
    {
        self.old_reason == other.old_reason && self.new_reason == other.new_reason
    }

    /// Whether both are of the same class, direction and way, of topics that begin with `$` or of others, and the same
    /// lines decide them.
    pub(crate) fn is_like(&self, other: &Difference) -> bool
        ensures { result ≡ is_like self.now other.now }
    {
        // The numbers of lines first: they differ mostly, and no text is looked at then.
        self.same_reasons(other)
            && same_class(&self.class, &other.class)
            && same_direction(self.direction, other.direction)
            && self.way == other.way
            && same_start(&self.topic, &other.topic)
    }
}
