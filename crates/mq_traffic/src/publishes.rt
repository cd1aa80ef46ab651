/// How many publishes of a script are to some topics, and how many topics they are.
#[derive(Clone, Copy, PartialEq, Eq)]
pub struct Publishes {
    /// The publishes.
    pub count: u64,
    /// The topics.
    pub topics: u64,
}

impl Publishes {
    pub(crate) const NONE: Publishes = Publishes {
        count: 0,
        topics: 0,
    };

    /// With those of one topic more.
    pub(crate) fn with_topic(self, count: u64) -> Publishes {
        Publishes {
            count: self.count.saturating_add(count),
            topics: self.topics.saturating_add(1),
        }
    }
}
