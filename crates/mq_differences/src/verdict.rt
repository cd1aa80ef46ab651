ghost use Rattle.std.specs.Prelude.{◌≡◌};
ghost use Rattle.std.specs.Option.{option_copied, option_map};
ghost use Rattle.mq_acl.specs.AccessLists.{allow_by};
ghost use Rattle.mq_acl.specs.Views.{row_views};
ghost use Rattle.mq_differences.specs.Reasons.{first_grant, is_grant, reason_of};

use crate::decision::Request;
use crate::reason::{Reason, reason_for};
use mq_acl::{Direction, Row, Rules};
use mq_topic::TopicName;

/// Whether a client may read or write a topic, and why.
#[derive(Clone, Copy, Drop, PartialEq, Eq)]
pub struct Verdict {
    /// What decides it.
    pub reason: Reason,
    /// The first line that grants it, if one does: where a line denies it, what would grant it otherwise.
    pub grant: Option<u64>,
}

impl Verdict {
    /// Whether it may.
    pub fn is_allowed(&self) -> bool
        ensures { result ≡ is_grant self.now.reason }
    {
        matches!(self.reason, Reason::Grant(_))
    }
}

/// Whether by these rules the client with this client id, and with this user name or none, may read
/// or write the topic, and why.
pub fn why(
    rules: Rules,
    rows: &[Row],
    client: &str,
    user: Option<&str>,
    topic: &TopicName,
    direction: Direction,
) -> Verdict
    ensures reason { result.reason ≡ reason_of rules rows.now client.now
        (option_copied user.entry) topic.now direction }
    ensures grant { result.grant ≡ option_map (λ row. row.line)
        (first_grant rules rows.now client.now (option_copied user.entry) topic.now direction) }
    ensures allowed { is_grant result.reason ≡ allow_by rules (row_views rows.now) client.now
        (option_copied user.entry) topic.now direction }
{
    let request = Request {
        rules,
        client,
        user,
        topic,
        direction,
    };
    Verdict {
        reason: reason_for(rows, &request),
        grant: request.grant(rows).map(|row| row.line),
    }
}
