//! The search by mosquitto's rules: over every client id and user name that a broker can have.
ghost use Rattle.std.specs.Prelude.{◌≡◌, ◌++◌, [], true, false, IfNone, IfOk, IfSome, if◌then◌else◌, string_bytes};
ghost use Rattle.mq_cover.specs.Choices.{other_at};
ghost use Rattle.mq_shapes.specs.Passed.{Passes};
ghost use Rattle.mq_shapes.specs.Ruled.{IsRuled, RulesNone, known_levels};
ghost use Rattle.mq_unify.specs.Joined.{user_view};
ghost use Rattle.mq_witness.specs.Names.{are_states, start_at};
ghost use Rattle.mq_witness.specs.Ready.{is_nobody};
ghost use Rattle.mq_witness.specs.Rows.{lent_rows};
ghost use Rattle.mq_witness.specs.RuledSearch.{CanBeRuled, IsAmong, IsRuledAnswer};
ghost use Rattle.mq_witness.specs.RuledSearch.{RuledFindsNone, RuledPasses, has_plain_name};
ghost use Rattle.mq_witness.specs.RuledSearch.{within};

use crate::ids::can_be_id;
use crate::names::Names;
use mq_acl::Row;
use mq_cover::Others;
use mq_shapes::{Clients, Found, Ruled};
use mq_topic::is_plain;
use std::alloc::{AllocError, Global};

/// Rows of lists that are asked about, with what stands for others, and all user names of the lists.
#[derive(Clone, Copy, Drop)]
pub(crate) struct RuledSearch<'a> {
    pub others: Others<'a>,
    pub users: &'a [&'a str],
    /// The filter of the states of bridges, as a row.
    pub states: &'a [&'a Row],
    pub must: &'a [&'a Row],
    pub cover: &'a [&'a Row],
    ghost ready: { CanBeRuled others users.now (lent_rows states.now) (lent_rows must.now)
        (lent_rows cover.now) },
}

fn has_plain_name(clients: Clients<'_>) -> bool
    ensures { result ≡ has_plain_name clients.entry }
{
    match clients {
        Clients::Named(name) => is_plain(name),
        _ => true,
    }
}

// Whether no client can have the user name that is asked about.
pub(crate) fn is_nobody(clients: Clients<'_>) -> bool
    ensures { result ≡ is_nobody clients.entry }
{
    match clients {
        Clients::Named(name) => !can_be_id(name),
        _ => false,
    }
}

impl<'a> RuledSearch<'a> {
    // The rows whose filters all of these names match.
    fn within(&self, names: Names) -> &'a [&'a Row]
        ensures { result.now ≡ (if are_states names then self.now.states.now else []) }
    {
        if names.are_states() {
            return self.states;
        }
        &[]
    }

    fn ruled(&self, names: Names) -> Ruled<'a>
        ensures others { result.others ≡ self.now.others }
        ensures start { result.start ≡ start_at names }
        ensures users { result.users ≡ self.now.users }
        ensures within { result.within.now
            ≡ (if are_states names then self.now.states.now else []) }
        ensures must { result.must ≡ self.now.must }
        ensures cover { result.cover ≡ self.now.cover }
    {
        Ruled {
            others: self.others,
            start: names.start(),
            users: self.users,
            within: self.within(names),
            must: self.must,
            cover: self.cover,
        }
    }

    // Of clients whose texts have no wildcards.
    fn find_plain(
        &self,
        alloc: Global,
        names: Names,
        clients: Clients<'a>,
    ) -> Result<Option<Found>, AllocError>
        requires user { IsAmong self.now.users.now clients }
        requires somebody { is_nobody clients ≡ false }
        ensures none { IfOk result (λ found. IfNone found (has_plain_name clients.entry ≡ true
            → RulesNone (start_at names) self.now.users.now clients.entry
            (within names (lent_rows self.now.states.now)) (lent_rows self.now.must.now)
            (lent_rows self.now.cover.now))) }
        ensures some { IfOk result (λ found. IfSome found (λ found. IsRuled (start_at names)
            self.now.users.now clients.entry (within names (lent_rows self.now.states.now))
            (lent_rows self.now.must.now) (lent_rows self.now.cover.now)
            (string_bytes found.client) (user_view found.user) (string_bytes found.topic))) }
        ensures pass { IfOk result (λ found. IfSome found (λ found. Passes self.now.others
            (other_at (start_at names) self.now.others) (known_levels clients.entry)
            (within names (lent_rows self.now.states.now) ++ lent_rows self.now.must.now)
            (string_bytes found.client) (user_view found.user) (string_bytes found.topic))) }
    {
        if !has_plain_name(clients) {
            return Ok(None);
        }
        self.ruled(names).find(alloc, clients)
    }

    /// A client that is asked about, and one of these names that each of the first rows concerns and none of the others
    /// does; or that there is none.
    pub fn find(
        &self,
        alloc: Global,
        names: Names,
        clients: Clients<'a>,
    ) -> Result<Option<Found>, AllocError>
        requires { IsAmong self.now.users.now clients }
        ensures none { IfOk result (λ found. IfNone found (RuledFindsNone names self.now.users.now
            clients.entry (lent_rows self.now.must.now) (lent_rows self.now.cover.now))) }
        ensures some { IfOk result (λ found. IfSome found (λ found. IsRuledAnswer names
            self.now.users.now clients.entry (lent_rows self.now.must.now)
            (lent_rows self.now.cover.now) (string_bytes found.client) (user_view found.user)
            (string_bytes found.topic))) }
        ensures pass { IfOk result (λ found. IfSome found (λ found. RuledPasses self.now.others
            names clients.entry (lent_rows self.now.must.now) (string_bytes found.client)
            (user_view found.user) (string_bytes found.topic))) }
    {
        if is_nobody(clients) {
            return Ok(None);
        }
        if let Some(found) = self.find_plain(alloc, names, clients)? {
            return Ok(Some(found));
        }
        self.ruled(names).find_odd(alloc, clients)
    }
}
