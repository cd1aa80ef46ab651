ghost use Rattle.std.specs.Prelude.{◌≡◌};

use mq_differences::Difference;
use mq_topic::TopicName;

/// A topic that a client may read or write by the old list, and may not under its new name by the new one, or the other
/// way round.
pub struct Renamed {
    /// What changes, and for whom. `topic` is the topic's old name, and `placeholders` has those of the client id, the user
    /// name and the topic's levels that neither list and no rule of the plan names.
    pub difference: Difference,
    /// The new name of the topic.
    pub new_topic: TopicName,
    /// The line of the plan's rule that decides about the topic, if one does.
    pub rule: Option<u64>,
}

// Opaque to callers' proofs: one step, and not one for each field (docs/explanation/gate.md).
impl Drop for Renamed {
    fn drop(self) {
        let Renamed {
            difference: _,
            new_topic: _,
            rule: _,
        } = self;
    }
}

impl Renamed {
    /// What changes, the new name of its topic, and the line of the rule.
    pub fn into_parts(self) -> (Difference, TopicName, Option<u64>)
        ensures { result ≡ (self.difference, self.new_topic, self.rule) }
    {
        let Renamed {
            difference,
            new_topic,
            rule,
        } = self;
        (difference, new_topic, rule)
    }
}
