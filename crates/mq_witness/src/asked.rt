ghost use Rattle.std.specs.Prelude.{◌&&◌, not};
ghost use Rattle.std.specs.Prelude.{◌≡◌, ℕ, List, true, false, Option, IfOk, IfErr, IfNone};
ghost use Rattle.std.specs.Prelude.{IfSome, All};
ghost use Rattle.std.specs.Prelude.{Contains, map, None};
ghost use Rattle.std.specs.Cmp.Lexicographic.{slice_cmp};
ghost use Rattle.std.specs.Ordering.{nat_cmp};
ghost use Rattle.std.specs.List.Sorted.{IsStrictlySortedBy};
ghost use Rattle.mq_acl.specs.Access.{begins_with_dollar};
ghost use Rattle.mq_acl.specs.declared.rules.Rules.TheVariants as rules;
ghost use Rattle.mq_cover.specs.Names.{can_be_level};
ghost use Rattle.mq_witness.specs.Clients.{name_passes};
ghost use Rattle.mq_witness.specs.Leveled.{IsHit, LevelsKnown, LevelsStand, NamesFindNone};
ghost use Rattle.mq_witness.specs.Ruled.{FindsNoneBy, KnowsBy, ShowsBy, StandsBy, are_whole};
ghost use Rattle.mq_witness.specs.Ruled.{is_stand_in, names_by};
ghost use Rattle.mq_witness.specs.Asked.{AreLevels, FindsNone, FindsNoneIn, IsListed, Knows, Shows};
ghost use Rattle.mq_witness.specs.Asked.{ShowsIn, Stands, StandsIn, is_placeholder};
ghost use Rattle.mq_witness.specs.Limits.{IsFault, long_line};
ghost use Rattle.mq_witness.specs.Literals.{is_among, is_named};
ghost use Rattle.mq_witness.specs.Names.{is_one_of};
ghost use Rattle.mq_witness.specs.Rows.{all_rows, is_user_of, lent_rows, rows_name};
ghost use Rattle.mq_witness.specs.Topics.{FindsNoTopic, IsLimitFault, IsTopic};
ghost use Rattle.std.specs.Option.{option_copied};

use crate::fault::{LimitFault, ListFault};
use crate::fresh::BothFresh;
use crate::limits::{first_long, limit_fault};
use crate::literals::Literals;
use crate::names::{Names, has_states};
use crate::one::OneClient;
use crate::patterns::marked;
use crate::question::Found;
use crate::ruled_search::RuledSearch;
use crate::ruled_texts::{RuledTexts, lent, witness_of};
use crate::search::Search;
use crate::texts::FreshTexts;
use crate::topics::Topics;
use crate::witness::Witness;
use mq_acl::{Row, Rules};
use mq_shapes::Clients;
use mq_topic::TopicName;
use std::alloc::{AllocError, Global};
use std::marker::Model;

/// The rows of one or more access lists, of which questions can be asked.
pub struct Asked<'a> {
    lists: Vec<&'a [Row]>,
    rules: Rules,
    texts: FreshTexts,
    // With ids that begin with `$`.
    dollar: FreshTexts,
    // Longer than what a question about one client may name.
    longest: FreshTexts,
    users: Literals<'a>,
    // For questions by mosquitto's rules.
    ruled: RuledTexts<'a>,
}

// Opaque to callers' proofs: one step, and not one for each field (docs/explanation/gate.md).
impl Drop for Asked<'_> {
    fn drop(self) {
        let Asked {
            lists: _,
            rules: _,
            texts: _,
            dollar: _,
            longest: _,
            users: _,
            ruled: _,
        } = self;
    }
}

impl<'a> Model for Asked<'a> {
    ghost use Rattle.std.specs.Prelude.{◌≡◌, ◌++◌, string_bytes, true};
    ghost use Rattle.mq_witness.specs.Asked.{AskedRows};
    ghost use Rattle.mq_witness.specs.FreshTexts.{fresh_texts};
    ghost use Rattle.mq_witness.specs.Ready.{CanAnswer};
    ghost use Rattle.mq_witness.specs.Rows.{all_rows};
    ghost use Rattle.mq_witness.specs.Ruled.{are_whole};
    ghost use Rattle.mq_witness.specs.RuledTexts.{IsRuledFor};

    ghost Value = { AskedRows };

    ghost view = { λ a. record {
      rules = a.rules;
      rows = all_rows a.lists.items;
      placeholders = fresh_texts a.texts
          ++ fresh_texts a.dollar;
      plain = string_bytes a.ruled.prefixes.plain;
      dollar = string_bytes a.ruled.prefixes.dollar;
    } };

    ghost invariant = { λ a. CanAnswer (all_rows a.lists.items) a.texts a.dollar
        a.longest a.users × ((are_whole a.rules (all_rows a.lists.items) ≡ true)
        × IsRuledFor (all_rows a.lists.items) a.ruled) };
}

// The levels and the user names of the lists.
fn names_in<'a>(alloc: Global, lists: &[&'a [Row]]) -> Result<Literals<'a>, AllocError>
    ensures { IfOk result (λ names. (l : List ℕ) → is_named l names
        ≡ rows_name l (all_rows lists.now)) }
{
    let mut names = Literals::new(alloc);
    for rows in lists {
        names.add_rows(rows)?;
    }
    Ok(names)
}

// The user names of the lists.
fn users_in<'a>(alloc: Global, lists: &[&'a [Row]]) -> Result<Literals<'a>, AllocError>
    ensures { IfOk result (λ users. (l : List ℕ) → is_named l users
        ≡ is_user_of l (all_rows lists.now)) }
{
    let mut users = Literals::new(alloc);
    for rows in lists {
        users.add_users(rows)?;
    }
    Ok(users)
}

impl<'a> Asked<'a> {
    /// Takes the rows of lists, which decide by these rules. A row with a level or a user name of
    /// more than 300 bytes is named by the place of its list and by its line: a topic name made of
    /// such levels could be too long. By mosquitto's rules so is a `pattern` row with a mark that
    /// is a part of a level.
    pub fn of(alloc: Global, rules: Rules, lists: Vec<&'a [Row]>) -> Result<Asked<'a>, ListFault>
        ensures rules { IfOk result (λ asked. asked.rules ≡ rules) }
        ensures rows { IfOk result (λ asked. asked.rows ≡ all_rows lists.entry.items) }
        ensures whole { IfOk result (λ asked. are_whole rules asked.rows ≡ true) }
        ensures short { IfOk result (λ _. All (λ list. long_line list.now ≡ None)
            lists.entry.items) }
        ensures fault { IfErr result (IsFault rules lists.entry.items) }
    {
        if let Some(long) = first_long(&lists) {
            return Err(ListFault::Line(long.place, long.line));
        }
        if let Some(marked) = marked(rules, &lists) {
            return Err(ListFault::Mark(marked.place, marked.line));
        }
        let names = names_in(alloc, &lists)?;
        let users = users_in(alloc, &lists)?;
        let texts = FreshTexts::find(alloc, false, &names)?;
        let dollar = FreshTexts::find(alloc, true, &names)?;
        let longest = FreshTexts::longest(alloc)?;
        let ruled = RuledTexts::of(alloc, &lists, &users)?;
        Ok(Asked {
            lists,
            rules,
            texts,
            dollar,
            longest,
            users,
            ruled,
        })
    }

    /// The user names that rows name, each once, in the order of their bytes. The only error is that memory is refused.
    pub fn users(&self, alloc: Global) -> Result<Vec<&'a str>, AllocError>
        ensures users { IfOk result (λ all. (user : List ℕ) → is_among user all.items
            ≡ is_user_of user self.now.rows) }
        ensures order { IfOk result (λ all. IsStrictlySortedBy (slice_cmp nat_cmp)
            (map (λ user. user.now) all.items)) }
    {
        self.users.list(alloc)
    }

    /// By whose rules they decide.
    pub fn rules(&self) -> Rules
        ensures { result ≡ self.now.rules }
    {
        self.rules
    }

    /// Whether a witness has this client id, user name or level of its topic for any that no row names; by mosquitto's rules
    /// this level, wherever it stands.
    pub fn is_placeholder(&self, text: &str) -> bool
        ensures placeholder { result ≡ is_stand_in self.now text.now }
        ensures unnamed { result ≡ true → names_by self.now.rules text.now self.now.rows ≡ false }
    {
        match self.rules {
            Rules::Own => self.texts.has(text) || self.dollar.has(text),
            Rules::Mosquitto => self.ruled.prefixes.begin(text),
        }
    }

    /// A client and a topic that each row of `must` concerns and no row of `cover` does, or that
    /// there is none: of all client ids that a broker can have, all user names that are asked
    /// about, and all topic names. A text of the answer that no row names is a placeholder: it stands
    /// for any other that no row names. The only error is that memory is refused.
    pub fn find<'q>(
        &'q self,
        alloc: Global,
        clients: Clients<'q>,
        must: &'q [&'q Row],
        cover: &'q [&'q Row],
    ) -> Result<Option<Witness>, AllocError>
        requires user { IsListed self.now clients }
        requires must { All (Contains self.now.rows) (lent_rows must.now) }
        requires cover { All (Contains self.now.rows) (lent_rows cover.now) }
        ensures none { IfOk result (λ found. IfNone found (FindsNone self.entry.now clients.entry
            (lent_rows must.entry.now) (lent_rows cover.entry.now))) }
        ensures some { IfOk result (λ found. IfSome found (Shows self.entry.now clients.entry
            (lent_rows must.entry.now) (lent_rows cover.entry.now))) }
        ensures known { IfOk result (λ found. IfSome found (Knows self.entry.now)) }
        ensures stands { IfOk result (λ found. IfSome found (Stands self.entry.now clients.entry
            (lent_rows must.entry.now) (lent_rows cover.entry.now))) }
    {
        if let Some(found) = self.find_in(alloc, false, Names::Plain, clients, must, cover)? {
            return Ok(Some(found));
        }
        self.find_in(alloc, false, Names::Dollar, clients, must, cover)
    }

    /// The same of these topics, where a text in the place of a mark counts for the rule on `$`, or
    /// doesn't.
    fn find_in<'q>(
        &'q self,
        alloc: Global,
        front: bool,
        names: Names,
        clients: Clients<'q>,
        must: &'q [&'q Row],
        cover: &'q [&'q Row],
    ) -> Result<Option<Witness>, AllocError>
        requires user { IsListed self.now clients }
        requires must { All (Contains self.now.rows) (lent_rows must.now) }
        requires cover { All (Contains self.now.rows) (lent_rows cover.now) }
        ensures none { IfOk result (λ found. IfNone found (FindsNoneIn front names self.entry.now
            clients.entry (lent_rows must.entry.now) (lent_rows cover.entry.now))) }
        ensures some { IfOk result (λ found. IfSome found (ShowsIn front self.entry.now
            clients.entry (lent_rows must.entry.now) (lent_rows cover.entry.now))) }
        ensures kind { IfOk result (λ found. IfSome found (λ w.
            is_one_of names w.name ≡ true)) }
        ensures levels { IfOk result (λ found. IfSome found (AreLevels clients.entry)) }
        ensures known { IfOk result (λ found. IfSome found (Knows self.entry.now)) }
        ensures stands { IfOk result (λ found. IfSome found (StandsIn front self.entry.now
            clients.entry (lent_rows must.entry.now) (lent_rows cover.entry.now))) }
    {
        let search = Search {
            front,
            fresh: BothFresh {
                plain: self.texts.fresh(),
                dollar: self.dollar.fresh(),
            },
            users: &self.users,
            clients,
            must,
            cover,
        };
        match search.answer(alloc, names)? {
            Some(found) => Ok(Some(found.show(alloc)?)),
            None => Ok(None),
        }
    }

    /// A client and one of these topics that begins with `$`, or doesn't, that each row of `must`
    /// concerns by the rules of the lists and no row of `cover` does; or that there is none: of all
    /// client ids that a broker can have, all user names that are asked about, and all topic names.
    pub fn find_kind<'q>(
        &'q self,
        alloc: Global,
        clients: Clients<'q>,
        dollar: bool,
        topics: Topics,
        must: &'q [&'q Row],
        cover: &'q [&'q Row],
    ) -> Result<Option<Witness>, AllocError>
        requires user { IsListed self.now clients }
        requires must { All (Contains self.now.rows) (lent_rows must.now) }
        requires cover { All (Contains self.now.rows) (lent_rows cover.now) }
        ensures none { IfOk result (λ found. IfNone found (FindsNoneBy dollar topics
            self.entry.now clients.entry (lent_rows must.entry.now) (lent_rows cover.entry.now))) }
        ensures some { IfOk result (λ found. IfSome found (ShowsBy topics self.entry.now
            clients.entry (lent_rows must.entry.now) (lent_rows cover.entry.now))) }
        ensures kind { IfOk result (λ found. IfSome found (λ w.
            begins_with_dollar w.name ≡ dollar)) }
        ensures known { IfOk result (λ found. IfSome found (KnowsBy self.entry.now)) }
        ensures stands { IfOk result (λ found. IfSome found (StandsBy topics self.entry.now
            clients.entry (lent_rows must.entry.now) (lent_rows cover.entry.now))) }
    {
        match self.rules {
            Rules::Own => self.find_in(alloc, false, Names::begun(dollar), clients, must, cover),
            Rules::Mosquitto => self.find_level(alloc, clients, dollar, topics, must, cover),
        }
    }

    // A client that is asked about, and one of these names that each of the first rows concerns by mosquitto's rules and none
    // of the others does.
    fn find_names<'q>(
        &'q self,
        alloc: Global,
        names: Names,
        clients: Clients<'q>,
        must: &'q [&'q Row],
        cover: &'q [&'q Row],
    ) -> Result<Option<Witness>, AllocError>
        requires rules { self.now.rules ≡ rules.Mosquitto }
        requires user { IsListed self.now clients }
        requires must { All (Contains self.now.rows) (lent_rows must.now) }
        requires cover { All (Contains self.now.rows) (lent_rows cover.now) }
        ensures none { IfOk result (λ found. IfNone found (NamesFindNone names self.entry.now
            clients.entry (lent_rows must.entry.now) (lent_rows cover.entry.now))) }
        ensures some { IfOk result (λ found. IfSome found (IsHit self.entry.now clients.entry
            (lent_rows must.entry.now) (lent_rows cover.entry.now))) }
        ensures kind { IfOk result (λ found. IfSome found (λ w. is_one_of names w.name ≡ true)) }
        ensures known { IfOk result (λ found. IfSome found (LevelsKnown self.entry.now)) }
        ensures stands { IfOk result (λ found. IfSome found (LevelsStand self.entry.now
            clients.entry (lent_rows must.entry.now) (lent_rows cover.entry.now))) }
    {
        let states = lent(alloc, &self.ruled.states)?;
        let search = RuledSearch {
            others: self.ruled.prefixes.others(),
            users: &self.ruled.users,
            states: &states,
            must,
            cover,
        };
        match search.find(alloc, names, clients)? {
            Some(found) => Ok(Some(witness_of(alloc, found)?)),
            None => Ok(None),
        }
    }

    // The same by mosquitto's rules.
    fn find_level<'q>(
        &'q self,
        alloc: Global,
        clients: Clients<'q>,
        dollar: bool,
        topics: Topics,
        must: &'q [&'q Row],
        cover: &'q [&'q Row],
    ) -> Result<Option<Witness>, AllocError>
        requires rules { self.now.rules ≡ rules.Mosquitto }
        requires user { IsListed self.now clients }
        requires must { All (Contains self.now.rows) (lent_rows must.now) }
        requires cover { All (Contains self.now.rows) (lent_rows cover.now) }
        ensures none { IfOk result (λ found. IfNone found (FindsNoneBy dollar topics
            self.entry.now clients.entry (lent_rows must.entry.now) (lent_rows cover.entry.now))) }
        ensures some { IfOk result (λ found. IfSome found (ShowsBy topics self.entry.now
            clients.entry (lent_rows must.entry.now) (lent_rows cover.entry.now))) }
        ensures kind { IfOk result (λ found. IfSome found (λ w.
            begins_with_dollar w.name ≡ dollar)) }
        ensures known { IfOk result (λ found. IfSome found (KnowsBy self.entry.now)) }
        ensures stands { IfOk result (λ found. IfSome found (StandsBy topics self.entry.now
            clients.entry (lent_rows must.entry.now) (lent_rows cover.entry.now))) }
    {
        let names = Names::of(dollar, topics);
        if let Some(found) = self.find_names(alloc, names, clients, must, cover)? {
            return Ok(Some(found));
        }
        if !has_states(dollar, topics) {
            return Ok(None);
        }
        self.find_names(alloc, Names::States, clients, must, cover)
    }

    /// A topic that each row of `must` concerns and no row of `cover` does for the client with this client id, and with
    /// this user name or none; or that there is none, of all topic names that clients may read by these rules
    /// (`mq_acl::refuses`). Neither they nor `must` need be named by the lists. It takes a few steps for each row of
    /// `cover`, and more only for those that may concern what `must` does.
    pub fn find_topic<'q>(
        &'q self,
        alloc: Global,
        rules: Rules,
        client: &'q str,
        user: Option<&'q str>,
        must: &'q [&'q Row],
        cover: &'q [&'q Row],
    ) -> Result<Option<TopicName>, LimitFault>
        requires cover { All (Contains self.now.rows) (lent_rows cover.now) }
        ensures none { IfOk result (λ found. IfNone found (FindsNoTopic rules client.entry.now
            (option_copied user.entry) (lent_rows must.entry.now) (lent_rows cover.entry.now))) }
        ensures some { IfOk result (λ found. IfSome found (IsTopic rules client.entry.now
            (option_copied user.entry) (lent_rows must.entry.now) (lent_rows cover.entry.now))) }
        ensures fault { IfErr result (IsLimitFault client.entry.now (option_copied user.entry)
            (lent_rows must.entry.now)) }
    {
        if let Some(fault) = limit_fault(client, user, must) {
            return Err(fault);
        }
        let one = OneClient {
            fresh: self.longest.fresh(),
            client,
            user,
            must,
            cover,
        };
        if let Some(topic) = one.topic(alloc, Names::Plain)? {
            return Ok(Some(topic));
        }
        let topic = one.topic(alloc, Names::readable(rules))?;
        Ok(topic)
    }
}
