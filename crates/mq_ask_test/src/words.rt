//! Why a line doesn't hold, where no client and topic show it.
use crate::finding::Finding;
use mq_acl::Direction;
use mq_ask::refused_words;
use mq_expect::ExpectationKind;
use std::alloc::{AllocError, Global};

const LONG_LEVEL: &str = "a level of the filter has more than 300 bytes";

const PART_MARK: &str =
    "%c or %u is a part of a level: by mosquitto's rules it is only answered where it is a whole one";

const NO_LIST: &str = "no acl line stands before it, and no list is given";

fn fault_words(kind: ExpectationKind) -> &'static str {
    match kind {
        ExpectationKind::Keyword => {
            "no expectation: WHO may .., acl FILE, at most FILE or at least FILE"
        }
        ExpectationKind::File => "the file of the list is missing",
        ExpectationKind::Access => "what they may is missing: read, write or readwrite",
        ExpectationKind::Filter =>
            "the filter is missing, no topic filter, or a shared subscription",
        ExpectationKind::Pattern => "%c and %u must be whole levels of the filter",
        ExpectationKind::Except => {
            "behind the filter stands only except NAME, NAME .., and that of anyone"
        }
        ExpectationKind::Memory => "out of memory",
    }
}

fn none_may(direction: Direction) -> &'static str {
    match direction {
        Direction::Reading => "none of them may read any of these topics",
        Direction::Writing => "none of them may write any of these topics",
    }
}

/// Why a line doesn't hold, unless a client and a topic show it.
pub(crate) fn finding_words(
    alloc: Global,
    finding: &Finding<'_>,
) -> Result<Option<String>, AllocError> {
    let words = match finding {
        Finding::Holds | Finding::Fails(_) | Finding::Differs(_) => return Ok(None),
        Finding::Unnamed(user) => return Ok(Some(format!(in alloc;
            "no line is for user {user:?}"
        )?)),
        Finding::NoneMay(direction) => none_may(*direction),
        Finding::Refused(direction) => refused_words(*direction),
        Finding::Fault(kind) => fault_words(*kind),
        Finding::LongLevel => LONG_LEVEL,
        Finding::PartMark => PART_MARK,
        Finding::NoList => NO_LIST,
    };
    Ok(Some(String::from_str(alloc, words)?))
}
