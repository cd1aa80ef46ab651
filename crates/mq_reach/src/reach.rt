//! What a filter reaches of what a client may read.
ghost use Rattle.std.specs.Prelude.{◌≡◌, ℕ, List, Option, true, false, IfOk, IfErr, IfNone, IfSome};
ghost use Rattle.std.specs.Prelude.{IsTrue, None};
ghost use Rattle.std.specs.List.{filter};
ghost use Rattle.std.specs.Option.{option_copied};
ghost use Rattle.mq_topic.specs.Texts.{is_name};
ghost use Rattle.mq_acl.specs.Access.{grants, is_deny};
ghost use Rattle.mq_acl.specs.Views.{row_views};
ghost use Rattle.mq_acl.specs.declared.access.Direction.TheVariants.{Reading};
ghost use Rattle.mq_acl.specs.declared.rules.Rules.TheVariants as spec_rules;
ghost use Rattle.mq_witness.specs.Limits.{long_line};
ghost use Rattle.mq_reach.specs.ByOwner.{AreGrouped};
ghost use Rattle.mq_reach.specs.Reach.{IsListFault, IsReachFault, Reads, ReadsNone, list_by};

use crate::fault::ReachFault;
use crate::filled::{Client, row_of};
use crate::granted::{asked_of, granted_topic};
use crate::overlaps::{overlapping, own_overlapping};
use crate::patterns::pattern_topic;
use mq_acl::{ByOwner, Direction, Row, Rules, grants, is_deny, user_by};
use mq_topic::{LevelText, TopicFilter, TopicName};
use mq_witness::{Asked, ListFault};
use std::alloc::{AllocError, Global};
use std::marker::Model;

// The rows that grant reading, by whom they are for.
fn granting(alloc: Global, rows: &[Row]) -> Result<ByOwner<&Row>, AllocError>
    ensures { IfOk result (AreGrouped (filter (λ row. grants Reading row.access)
        (row_views rows.entry.now))) }
{
    let mut all = ByOwner::new(alloc);
    for row in rows {
        if grants(Direction::Reading, row.access) {
            all.add(row)?;
        }
    }
    Ok(all)
}

// The rows that deny, by whom they are for.
fn denying(alloc: Global, rows: &[Row]) -> Result<ByOwner<&Row>, AllocError>
    ensures { IfOk result (AreGrouped (filter (λ row. is_deny row.access)
        (row_views rows.entry.now))) }
{
    let mut all = ByOwner::new(alloc);
    for row in rows {
        if is_deny(row.access) {
            all.add(row)?;
        }
    }
    Ok(all)
}

/// A list that is asked what clients may read of the topics that a filter matches (MQTT 5.0, section 4.7).
pub struct Reach<'a> {
    rules: Rules,
    /// Its rows, which are asked about by our own rules alone.
    asked: Asked<'a>,
    granting: ByOwner<&'a Row>,
    denying: ByOwner<&'a Row>,
}

// Opaque to callers' proofs: one step, and not one for each field (docs/explanation/gate.md).
impl Drop for Reach<'_> {
    fn drop(self) {
        let Reach {
            rules: _,
            asked: _,
            granting: _,
            denying: _,
        } = self;
    }
}

impl<'a> Model for Reach<'a> {
    ghost use Rattle.mq_acl.specs.AccessLists.{AccessList};
    ghost use Rattle.mq_reach.specs.ByOwner.{CanReach};
    ghost use Rattle.mq_reach.specs.Reach.{list_by};

    ghost Value = { AccessList };

    ghost view = { λ r. list_by r.rules r.asked.rows };

    ghost invariant = { λ r. CanReach r.asked.rows r.granting r.denying };
}

impl<'a> Reach<'a> {
    /// Takes the rows of a list, which decide by these rules. One with a level or a user name of more than 300 bytes is
    /// named by its line; the list has place 0.
    pub fn new(alloc: Global, rules: Rules, rows: &'a [Row]) -> Result<Reach<'a>, ListFault>
        ensures list { IfOk result (λ reach. reach ≡ list_by rules (row_views rows.entry.now)) }
        ensures short { IfOk result (λ _. long_line rows.entry.now ≡ None) }
        ensures fault { IfErr result (IsListFault rows.entry.now) }
    {
        let asked = asked_of(alloc, rows)?;
        Ok(Reach {
            rules,
            asked,
            granting: granting(alloc, rows)?,
            denying: denying(alloc, rows)?,
        })
    }

    /// A topic that the filter matches and that the client with this client id, and with this user
    /// name or none, may read; or that there is none, of all topic names. By our own rules it looks
    /// at each row for the client once, and asks more of those that may grant a topic that the
    /// filter matches. By mosquitto's it does the same for the rows of `topic` lines, and where
    /// they grant none it makes a copy of each `pattern` row for the client.
    pub fn topic(
        &self,
        alloc: Global,
        client: &str,
        user: Option<&str>,
        filter: &TopicFilter,
    ) -> Result<Option<TopicName>, ReachFault>
        ensures none { IfOk result (λ found. IfNone found (ReadsNone self.now client.now
            (option_copied user.entry) filter.now)) }
        ensures some { IfOk result (λ found. IfSome found (λ name. Reads self.now client.now
            (option_copied user.entry) filter.now name)) }
        ensures fault { IfErr result (IsReachFault self.now client.now
            (option_copied user.entry) filter.now) }
    {
        match self.rules {
            Rules::Own => self.topic_by_own(alloc, client, user, filter),
            Rules::Mosquitto => self.topic_by_mosquitto(alloc, client, user, filter),
        }
    }

    // The same by our own rules.
    fn topic_by_own(
        &self,
        alloc: Global,
        client: &str,
        user: Option<&str>,
        filter: &TopicFilter,
    ) -> Result<Option<TopicName>, ReachFault>
        ensures none { IfOk result (λ found. IfNone found (ReadsNone
            (list_by spec_rules.Own self.now.rows) client.now (option_copied user.entry)
            filter.now)) }
        ensures some { IfOk result (λ found. IfSome found (λ name. Reads
            (list_by spec_rules.Own self.now.rows) client.now (option_copied user.entry)
            filter.now name)) }
        ensures fault { IfErr result (IsReachFault (list_by spec_rules.Own self.now.rows)
            client.now (option_copied user.entry) filter.now) }
    {
        let row = row_of(alloc, user, filter)?;
        let granting = overlapping(alloc, &self.granting, user, &row)?;
        if granting.is_empty() {
            return Ok(None);
        }
        let denying = overlapping(alloc, &self.denying, user, &row)?;
        let rules = Rules::Own;
        let found = granted_topic(
            alloc,
            &self.asked,
            rules,
            client,
            user,
            &row,
            &granting,
            &denying,
        )?;
        Ok(found)
    }

    // The same by mosquitto's: the client's own rows decide, and where none of them covers a topic
    // the `pattern` rows do.
    fn topic_by_mosquitto(
        &self,
        alloc: Global,
        client: &str,
        user: Option<&str>,
        filter: &TopicFilter,
    ) -> Result<Option<TopicName>, ReachFault>
        ensures none { IfOk result (λ found. IfNone found (ReadsNone
            (list_by spec_rules.Mosquitto self.now.rows) client.now (option_copied user.entry)
            filter.now)) }
        ensures some { IfOk result (λ found. IfSome found (λ name. Reads
            (list_by spec_rules.Mosquitto self.now.rows) client.now (option_copied user.entry)
            filter.now name)) }
        ensures fault { IfErr result (IsReachFault (list_by spec_rules.Mosquitto self.now.rows)
            client.now (option_copied user.entry) filter.now) }
    {
        let rules = Rules::Mosquitto;
        let user = user_by(rules, user);
        let row = row_of(alloc, user, filter)?;
        let granting = own_overlapping(alloc, &self.granting, user, &row)?;
        let denying = own_overlapping(alloc, &self.denying, user, &row)?;
        let own = granted_topic(
            alloc,
            &self.asked,
            rules,
            client,
            user,
            &row,
            &granting,
            &denying,
        )?;
        if let Some(topic) = own {
            return Ok(Some(topic));
        }
        let client = Client { id: client, user };
        let (deny, grant) = (self.denying.everyone(), self.granting.everyone());
        pattern_topic(alloc, client, row, &denying, deny, grant)
    }

    /// Whether the client may read no topic that the filter matches.
    pub fn is_unreached(
        &self,
        alloc: Global,
        client: &str,
        user: Option<&str>,
        filter: &TopicFilter,
    ) -> Result<bool, ReachFault>
        ensures unreached { IfOk result (λ unreached. unreached ≡ true
            → ReadsNone self.now client.now
            (option_copied user.entry) filter.now) }
        ensures reached { IfOk result (λ unreached. unreached ≡ false → (name : List ℕ)
            × IsTrue (is_name name)
            × Reads self.now client.now (option_copied user.entry) filter.now name) }
        ensures fault { IfErr result (IsReachFault self.now client.now
            (option_copied user.entry) filter.now) }
    {
        let Some(topic) = self.topic(alloc, client, user, filter)? else {
            return Ok(true);
        };
        // Learns that it is valid.
        let _text = topic.text();
        Ok(false)
    }
}
