//! Topics that a filter may match, whoever the client is.
use mq_topic::split_first;

/// What `%c` and `%u` stand for in a filter.
#[derive(Clone, Copy, PartialEq, Eq)]
pub enum Marks {
    /// Themselves.
    Plain,
    /// As whole levels, any level.
    Level,
    /// As whole levels, any level or several.
    Levels,
}

/// A topic filter in which `%c` and `%u` may stand for the client id and the user name of any client.
#[derive(Clone, Copy, Drop)]
pub struct TopicPattern<'a> {
    /// The filter.
    pub filter: &'a str,
    /// What its marks stand for.
    pub marks: Marks,
}

fn is_mark(level: &str) -> bool {
    level == "%c" || level == "%u"
}

fn is_wildcard(level: &str) -> bool {
    level == "+" || level == "#"
}

impl TopicPattern<'_> {
    // Whether a wildcard would have to match a first level that begins with `$` (MQTT 5.0, section 4.7.2).
    fn hides(&self, topic: &str) -> bool {
        let first = self.filter.split('/').next().unwrap_or("");
        topic.starts_with('$') && is_wildcard(first)
    }

    fn passes(&self, wanted: &str, level: &str) -> bool {
        wanted == "+" || wanted == level || (self.marks != Marks::Plain && is_mark(wanted))
    }

    // Whether it may stand for more levels than one.
    fn goes_on(&self, wanted: &str) -> bool {
        self.marks == Marks::Levels && is_mark(wanted)
    }

    // What is left of the filter and of the topic, level by level, the rule on `$` left out (MQTT 5.0, section 4.7.1).
    fn rest_matches(&self, filter: Option<&str>, topic: Option<&str>) -> bool {
        let Some(left) = filter else {
            return topic.is_none();
        };
        let (wanted, behind) = split_first(left);
        if wanted == "#" {
            return true;
        }
        let Some(text) = topic else {
            return false;
        };
        let (level, rest) = split_first(text);
        if !self.passes(wanted, level) {
            return false;
        }
        self.rest_matches(behind, rest)
            || (self.goes_on(wanted) && rest.is_some() && self.rest_matches(filter, rest))
    }

    /// Whether the filter matches the topic for some client.
    pub fn may_match(&self, topic: &str) -> bool {
        !self.hides(topic) && self.rest_matches(Some(self.filter), Some(topic))
    }
}
