ghost use Rattle.std.specs.Prelude.{◌≡◌};
ghost use Rattle.std.specs.Option.{option_copied};
ghost use Rattle.mq_differences.specs.Reasons.{deciding_line, reason_by, reason_of};

use crate::decision::Request;
use mq_acl::{Row, is_deny, refuses};

/// What decides whether a client may read or write a topic. Lines are counted from 1.
#[derive(Clone, Copy, Drop, PartialEq, Eq)]
pub enum Reason {
    /// A `deny` line that concerns it: it may not.
    Deny(u64),
    /// A line that grants it: it may.
    Grant(u64),
    /// No line denies it and none grants it: it may not.
    NoGrant,
    /// The broker refuses it, whatever its list says (`mq_acl::refuses`): it may not.
    Broker,
}

impl Reason {
    /// The line that decides, if one does.
    pub fn line(self) -> Option<u64>
        ensures { result ≡ deciding_line self }
    {
        match self {
            Reason::Deny(line) | Reason::Grant(line) => Some(line),
            Reason::NoGrant | Reason::Broker => None,
        }
    }
}

fn reason_by(decider: Option<&Row>) -> Reason
    ensures { result ≡ reason_by (option_copied decider.entry) }
{
    let Some(row) = decider else {
        return Reason::NoGrant;
    };
    if is_deny(row.access) {
        Reason::Deny(row.line)
    } else {
        Reason::Grant(row.line)
    }
}

/// What decides it.
pub(crate) fn reason_for(rows: &[Row], request: &Request) -> Reason
    ensures { result ≡ reason_of request.now.rules rows.now request.now.client.now
        (option_copied request.now.user) request.now.topic.now request.now.direction }
{
    if refuses(request.rules, request.direction, request.topic) {
        return Reason::Broker;
    }
    reason_by(request.decider(rows))
}
