//! What the search by mosquitto's rules stands on.
ghost use Rattle.std.specs.Prelude.{◌≡◌, ◌++◌, ◌∷◌, [], ℕ, List, IfOk, string_bytes, true};
ghost use Rattle.mq_acl.specs.Views.{row_views};
ghost use Rattle.mq_shapes.specs.Prefix.{ArePrefixes};
ghost use Rattle.mq_unify.specs.Joined.{user_view};
ghost use Rattle.mq_topic.specs.Texts.{is_name};
ghost use Rattle.mq_witness.specs.Literals.{is_among, is_named};
ghost use Rattle.mq_witness.specs.Rows.{all_rows, lent_rows};
ghost use Rattle.mq_witness.specs.RuledSearch.{state_row};

use crate::literals::Literals;
use crate::witness::Witness;
use mq_acl::{Access, Owner, Row, state_filter};
use mq_shapes::{Found, Prefixes};
use mq_topic::{TopicFault, TopicFilter, TopicName};
use std::alloc::{AllocError, Global};

/// The texts that stand for others, the user names of lists, and the filter of the states of bridges.
pub(crate) struct RuledTexts<'a> {
    pub prefixes: Prefixes,
    pub users: Vec<&'a str>,
    /// A row with that filter, which is asked as it is written.
    pub states: Vec<Row>,
}

// Opaque to callers' proofs: one step, and not one for each field (docs/explanation/gate.md).
impl Drop for RuledTexts<'_> {
    fn drop(self) {
        let RuledTexts {
            prefixes: _,
            users: _,
            states: _,
        } = self;
    }
}

fn states_filter(alloc: Global) -> Result<TopicFilter, AllocError>
    ensures { IfOk result (λ filter. filter ≡ state_row.filter) }
{
    match TopicFilter::parse(alloc, state_filter()) {
        Ok(filter) => Ok(filter),
        Err(fault) => match fault {
            TopicFault::Memory => Err(AllocError),
            _ => unreachable!(),
        },
    }
}

fn states(alloc: Global) -> Result<Vec<Row>, AllocError>
    ensures { IfOk result (λ rows. row_views rows.items ≡ state_row ∷ []) }
{
    let mut rows = Vec::new(alloc);
    rows.push(Row {
        line: 0,
        owner: Owner::Anonymous,
        access: Access::Read,
        filter: states_filter(alloc)?,
    })?;
    Ok(rows)
}

fn prefixes(alloc: Global, lists: &[&[Row]], states: &[Row]) -> Result<Prefixes, AllocError>
    ensures { IfOk result (λ made. ArePrefixes (all_rows lists.now ++ row_views states.now)
        (string_bytes made.plain) (string_bytes made.dollar)) }
{
    let mut all = Vec::new(alloc);
    all.extend_from_slice(lists)?;
    all.push(states)?;
    Prefixes::of(alloc, &all)
}

impl<'a> RuledTexts<'a> {
    /// Those of these lists, where these are the user names that their rows are for.
    pub fn of(
        alloc: Global,
        lists: &[&[Row]],
        users: &Literals<'a>,
    ) -> Result<RuledTexts<'a>, AllocError>
        ensures prefixes { IfOk result (λ made. ArePrefixes (all_rows lists.now ++ state_row ∷ [])
            (string_bytes made.prefixes.plain) (string_bytes made.prefixes.dollar)) }
        ensures users { IfOk result (λ made. (user : List ℕ) → is_among user made.users.items
            ≡ is_named user users.now) }
        ensures states { IfOk result (λ made. row_views made.states.items ≡ state_row ∷ []) }
    {
        let states = states(alloc)?;
        let prefixes = prefixes(alloc, lists, &states)?;
        let users = users.list(alloc)?;
        Ok(RuledTexts {
            prefixes,
            users,
            states,
        })
    }
}

/// The rows, as they are lent.
pub(crate) fn lent<'r>(alloc: Global, rows: &'r [Row]) -> Result<Vec<&'r Row>, AllocError>
    ensures { IfOk result (λ all. lent_rows all.items ≡ row_views rows.entry.now) }
{
    let mut all = Vec::new(alloc);
    for row in rows {
        all.push(row)?;
    }
    Ok(all)
}

/// What was found, as it is answered.
pub(crate) fn witness_of(alloc: Global, found: Found) -> Result<Witness, AllocError>
    requires { is_name (string_bytes found.topic) ≡ true }
    ensures client { IfOk result (λ w. w.client ≡ found.client) }
    ensures user { IfOk result (λ w. w.user ≡ found.user) }
    ensures name { IfOk result (λ w. w.name ≡ string_bytes found.topic) }
{
    let Found {
        client,
        user,
        topic,
    } = found;
    match TopicName::parse(alloc, topic.as_str()) {
        Ok(name) => Ok(Witness { client, user, name }),
        Err(fault) => match fault {
            TopicFault::Memory => Err(AllocError),
            _ => unreachable!(),
        },
    }
}
