//! The topics of one client.
ghost use Rattle.std.specs.Prelude.{◌≡◌, ℕ, List, true, false, IfOk, IfNone, IfSome};
ghost use Rattle.std.specs.Option.{option_copied};
ghost use Rattle.mq_topic.specs.Texts.{is_name};
ghost use Rattle.mq_witness.specs.Decided.{decides};
ghost use Rattle.mq_witness.specs.Rows.{lent_rows};
ghost use Rattle.mq_witness.specs.Names.{is_one_of};
ghost use Rattle.mq_witness.specs.Topics.{IsReadyFor, IsTopicOf};

use crate::fresh::{BothFresh, Fresh};
use crate::ids::level_of;
use crate::names::Names;
use crate::pose::pose;
use mq_acl::Row;
use mq_cover::Marks;
use mq_topic::TopicName;
use std::alloc::{AllocError, Global};

/// Rows that are asked about for one client, with the texts that stand for others.
#[derive(Clone, Copy, Drop)]
pub(crate) struct OneClient<'a> {
    pub fresh: Fresh<'a>,
    pub client: &'a str,
    pub user: Option<&'a str>,
    pub must: &'a [&'a Row],
    pub cover: &'a [&'a Row],
    ghost ready: { IsReadyFor fresh client.now (option_copied user) (lent_rows must.now)
        (lent_rows cover.now) },
}

impl OneClient<'_> {
    /// One of these names that each of the first rows concerns and none of the others does; or that
    /// there is none.
    pub fn topic(&self, alloc: Global, names: Names) -> Result<Option<TopicName>, AllocError>
        ensures none { IfOk result (λ found. IfNone found ((name : List ℕ)
            → is_name name ≡ true → is_one_of names name ≡ true
            → decides self.now.client.now (option_copied self.now.user) name
            (lent_rows self.now.must.now) (lent_rows self.now.cover.now) ≡ false)) }
        ensures some { IfOk result (λ found. IfSome found (IsTopicOf names self.now.client.now
            (option_copied self.now.user) (lent_rows self.now.must.now)
            (lent_rows self.now.cover.now))) }
    {
        let fresh = BothFresh {
            plain: self.fresh,
            dollar: self.fresh,
        };
        let posed = pose(alloc, false, fresh, self.user, names, self.must, self.cover)?;
        let Some(question) = posed else {
            return Ok(None);
        };
        let marks = Marks {
            client: level_of(Some(self.client)),
            user: level_of(self.user),
        };
        question.name(alloc, marks)
    }
}
