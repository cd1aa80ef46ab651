//! The row that decides whether a client may read or write a topic.
ghost use Rattle.std.specs.Prelude.{◌≡◌, find};
ghost use Rattle.std.specs.Option.{option_copied};
ghost use Rattle.mq_acl.specs.Views.{row_view};
ghost use Rattle.mq_differences.specs.Reasons.{decider, decides_at, first_grant};

use crate::ranks::{is_judge, rank};
use mq_acl::{Direction, Row, Rules, concerns_by, user_by};
use mq_topic::TopicName;

/// What a client does.
#[derive(Clone, Copy, Drop)]
pub(crate) struct Request<'a> {
    pub rules: Rules,
    /// Its client id.
    pub client: &'a str,
    /// Its user name, if it has one.
    pub user: Option<&'a str>,
    pub topic: &'a TopicName,
    pub direction: Direction,
}

impl Request<'_> {
    // Whether the row is of this rank, may decide, and concerns the topic.
    fn decides_at(&self, place: u8, row: &Row) -> bool
        ensures { result ≡ decides_at self.now.rules self.now.direction place self.now.client.now
            (option_copied self.now.user) self.now.topic.now (row_view row.now) }
    {
        let user = user_by(self.rules, self.user);
        is_judge(self.direction, row)
            && rank(self.rules, row) == place
            && concerns_by(self.rules, row, self.client, user, self.topic)
    }

    // The first row of this rank that concerns the topic.
    fn first_at<'r>(&self, rows: &'r [Row], place: u8) -> Option<&'r Row>
        ensures { option_copied result ≡ find (λ row. decides_at self.now.rules self.now.direction
            place self.now.client.now (option_copied self.now.user) self.now.topic.now
            (row_view row)) rows.entry.now }
    {
        rows.iter().find(|row| self.decides_at(place, row))
    }

    /// The row that decides it; without one it is denied.
    pub(crate) fn decider<'r>(&self, rows: &'r [Row]) -> Option<&'r Row>
        ensures { option_copied result ≡ decider self.now.rules rows.entry.now self.now.client.now
            (option_copied self.now.user) self.now.topic.now self.now.direction }
    {
        let own = self.first_at(rows, 0).or(self.first_at(rows, 1));
        let pattern = self.first_at(rows, 2).or(self.first_at(rows, 3));
        own.or(pattern)
    }

    /// The first row that grants it: where another denies it, what would grant it otherwise.
    pub(crate) fn grant<'r>(&self, rows: &'r [Row]) -> Option<&'r Row>
        ensures { option_copied result ≡ first_grant self.now.rules rows.entry.now
            self.now.client.now (option_copied self.now.user) self.now.topic.now
            self.now.direction }
    {
        self.first_at(rows, 1).or(self.first_at(rows, 3))
    }
}
