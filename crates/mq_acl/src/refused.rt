//! What mosquitto 2.0 refuses whatever its list says.
ghost use Rattle.std.specs.Prelude.{◌≡◌};
ghost use Rattle.mq_acl.specs.Refused.{begins_own, begins_shared, is_kept, is_refused, is_state};
ghost use Rattle.mq_acl.specs.Refused.{refuses, state_filter};
ghost use Rattle.mq_topic.specs.Matching.{level_matches};

use crate::access::Direction;
use crate::rules::Rules;
use mq_topic::{LevelTest, LevelText, TopicFilter, TopicName, levels_match};

/// The filter of the topics on which bridges tell their state: of those that begin with `$SYS`
/// clients may write these alone (mosquitto.conf(5), `notifications`).
#[tactic(auto, unfolding(crate::specs::Refused::state_filter))]
pub fn state_filter() -> &'static str
    ensures { result.now ≡ state_filter }
{
    "$SYS/broker/connection/+/state"
}

struct StateLevels;

impl LevelTest for StateLevels {
    ghost passes = { λ _ wanted level. level_matches wanted level };

    fn passes(&self, wanted: &str, level: &str) -> bool {
        wanted == "+" || wanted == level
    }
}

fn is_state(text: &str) -> bool
    ensures { result ≡ is_state text.now }
{
    levels_match(&StateLevels, state_filter(), text)
}

/// Whether the text begins with `$SYS`, as the topics of the broker's own do, and `$SYSTEM`.
#[tactic(auto, unfolding(crate::specs::Refused::begins_own))]
pub fn begins_own(text: &str) -> bool
    ensures { result ≡ begins_own text.now }
{
    text.starts_with("$SYS")
}

/// Whether the text begins with `$share`, as shared subscriptions do, and `$sharex`.
#[tactic(auto, unfolding(crate::specs::Refused::begins_shared))]
pub fn begins_shared(text: &str) -> bool
    ensures { result ≡ begins_shared text.now }
{
    text.starts_with("$share")
}

// Whether it is a topic of the broker's own that clients may not write.
fn is_kept(text: &str) -> bool
    ensures { result ≡ is_kept text.now }
{
    begins_own(text) && !is_state(text)
}

// Whether mosquitto refuses to let clients read the topic with this text, or write it.
#[tactic(auto, unfolding(crate::specs::Refused::is_refused))]
fn is_refused(direction: Direction, text: &str) -> bool
    ensures { result ≡ is_refused direction text.now }
{
    if begins_shared(text) {
        return true;
    }
    match direction {
        Direction::Reading => false,
        Direction::Writing => is_kept(text),
    }
}

// Whether it does by these rules.
fn refuses_text(rules: Rules, direction: Direction, text: &str) -> bool
    ensures { result ≡ refuses rules direction text.now }
{
    match rules {
        Rules::Own => false,
        Rules::Mosquitto => is_refused(direction, text),
    }
}

/// Whether by these rules the broker refuses to let clients read the topic, or write it, whatever
/// the list says. By mosquitto's it does of what begins with `$share`, and writing of what begins
/// with `$SYS`, but for the states of bridges.
pub fn refuses(rules: Rules, direction: Direction, name: &TopicName) -> bool
    ensures { result ≡ refuses rules direction name.now }
{
    refuses_text(rules, direction, name.text())
}

/// Whether the filter names such topics: it begins as they do, and isn't one of states of bridges
/// alone. A filter that begins with a wildcard or a mark names none, though it may match some.
pub fn refuses_filter(rules: Rules, direction: Direction, filter: &TopicFilter) -> bool
    ensures { result ≡ refuses rules direction filter.now }
{
    refuses_text(rules, direction, filter.text())
}
