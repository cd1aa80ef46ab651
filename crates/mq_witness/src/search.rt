ghost use Rattle.std.specs.Prelude.{◌≡◌, ℕ, List, Option, true, false, IfOk, IfNone, IfSome};
ghost use Rattle.std.specs.Option.{option_copied};
ghost use Rattle.mq_topic.specs.Texts.{is_name};
ghost use Rattle.mq_witness.specs.Clients.{can_be_id, is_of};
ghost use Rattle.mq_witness.specs.Decided.{decides_in};
ghost use Rattle.mq_witness.specs.Literals.{is_named};
ghost use Rattle.mq_witness.specs.Names.{are_begun, is_one_of};
ghost use Rattle.mq_witness.specs.Ready.{AreReady, is_nobody, stand_in};
ghost use Rattle.mq_witness.specs.Roots.{NoneConcerned};
ghost use Rattle.mq_witness.specs.Rows.{lent_rows};

use crate::fresh::BothFresh;
use crate::ids::can_be_id;
use crate::literals::Literals;
use crate::names::Names;
use crate::pose::pose;
use crate::question::{Found, Question};
use mq_acl::Row;
use mq_shapes::Clients;
use std::alloc::{AllocError, Global};

/// Rows of lists that are asked about, with the texts that stand for others, and all user names of the lists.
#[derive(Clone, Copy, Drop)]
pub(crate) struct Search<'a, 'b> {
    /// Whether a text in the place of a mark counts for the rule on `$`.
    pub front: bool,
    pub fresh: BothFresh<'a>,
    pub users: &'a Literals<'b>,
    pub clients: Clients<'a>,
    pub must: &'a [&'a Row],
    pub cover: &'a [&'a Row],
    ghost ready: { AreReady front fresh users.now clients (lent_rows must.now)
        (lent_rows cover.now) },
}

impl<'a, 'b> Search<'a, 'b> {
    ghost use Rattle.mq_witness.specs.Answers.{Asks, IsFoundBy};

    // A user name that the rows apply to as to all that are asked about.
    fn user(&self) -> Option<&'a str>
        ensures { option_copied result ≡ stand_in self.now.fresh.plain self.now.clients }
    {
        match self.clients {
            Clients::Anonymous => None,
            Clients::Named(name) => Some(name),
            Clients::Others => Some(self.fresh.plain.user),
        }
    }

    // What is asked of these names; nothing where one of the first rows concerns none of them.
    fn pose(&self, alloc: Global, names: Names) -> Result<Option<Question<'a>>, AllocError>
        ensures none { IfOk result (λ question. IfNone question
            (NoneConcerned self.now.front (lent_rows self.now.must.now)
            (stand_in self.now.fresh.plain self.now.clients) (are_begun names))) }
        ensures some { IfOk result (λ question. IfSome question
            (Asks self.now.front self.now.fresh (stand_in self.now.fresh.plain self.now.clients) names
            (lent_rows self.now.must.now) (lent_rows self.now.cover.now))) }
    {
        let user = self.user();
        pose(
            alloc, self.front, self.fresh, user, names, self.must, self.cover,
        )
    }

    // Whether no client can have the user name that is asked about.
    fn is_nobody(&self) -> bool
        ensures { result ≡ is_nobody self.now.clients }
    {
        match self.clients {
            Clients::Named(name) => !can_be_id(name),
            _ => false,
        }
    }

    /// A client that is asked about, and one of these names that each of the first rows concerns and none of the others
    /// does; or that there is none.
    pub fn answer(&self, alloc: Global, names: Names) -> Result<Option<Found<'a>>, AllocError>
        ensures none { IfOk result (λ found. IfNone found ((client name : List ℕ)
            (user : Option (List ℕ)) → can_be_id client ≡ true
            → is_of (λ u. is_named u self.now.users.now) self.now.clients user ≡ true
            → is_name name ≡ true → is_one_of names name ≡ true
            → decides_in self.now.front client user name (lent_rows self.now.must.now)
            (lent_rows self.now.cover.now) ≡ false)) }
        ensures some { IfOk result (λ found. IfSome found (IsFoundBy self.now.front names
            self.now.fresh
            (λ u. is_named u self.now.users.now) self.now.clients
            (lent_rows self.now.must.now) (lent_rows self.now.cover.now))) }
    {
        if self.is_nobody() {
            return Ok(None);
        }
        let Some(question) = self.pose(alloc, names)? else {
            return Ok(None);
        };
        match self.clients {
            Clients::Anonymous => question.ask_user(alloc, None),
            Clients::Named(name) => question.ask_user(alloc, Some(name)),
            Clients::Others => question.ask_others(alloc, self.users),
        }
    }
}
