//! Where the copies of a message go.
ghost use Rattle.std.specs.Prelude.{◌≡◌, ◌&&◌, IfSome};
ghost use Rattle.std.specs.Option.{option_copied};
ghost use Rattle.std.specs.Rc.{rc_str_bytes};
ghost use Rattle.mq_acl.specs.AccessLists.{allowed};
ghost use Rattle.mq_acl.specs.declared.access.Direction.TheVariants.{Reading};
ghost use Rattle.mq_world.specs.Sessions.{user_of, is_reader};
ghost use Rattle.mq_sessions.specs.Queue.{room_for};
ghost use Rattle.mq_sessions.specs.Fates.{is_sent, waits};
ghost use Rattle.mq_router.specs.delivery.Fates.{IsCommon, IsFound, receivers};

use crate::delivery::access_view::AccessView;
use mq_acl::Acl;
use mq_sessions::{Fate, SessionFinder};
use mq_topic::TopicName;
use std::alloc::Global;
use std::collections::HashMap;
use std::marker::Model;
use std::rc::RcStr;

/// So many user names are asked about before answers are kept by user name: for fewer that costs
/// more than it saves.
const FEW: u32 = 8;

/// What was found of the clients of one user name, or of those without one.
#[derive(Clone, Copy)]
struct Found<'a> {
    user: Option<&'a str>,
    may_read: bool,
}

/// Where the copies of a message go. Where the access list says the same of all clients of a user
/// name, it is asked once for each, but for the first few.
pub(crate) struct Fates<'a> {
    access: &'a Option<Acl>,
    finder: SessionFinder<'a>,
    name: &'a TopicName,
    // Whether the list says the same of all clients of a user name, once that is looked up.
    common: Option<bool>,
    last: Option<Found<'a>>,
    count: u32,
    by_user: HashMap<Option<&'a str>, bool>,
}

// Opaque to callers' proofs: one step, and not one for each field (docs/explanation/gate.md).
impl Drop for Fates<'_> {
    fn drop(self) {
        let Fates {
            access: _,
            finder: _,
            name: _,
            common: _,
            last: _,
            count: _,
            by_user: _,
        } = self;
    }
}

impl<'a> Model for Fates<'a> {
    ghost use Rattle.std.specs.Prelude.{IfSome};
    ghost use Rattle.mq_router.specs.delivery.Fates.{AreFound, IsCommon, Receivers, receivers};

    ghost Value = { Receivers };

    ghost view = { λ f. receivers f.access.now f.finder f.name.now };

    ghost invariant = { λ f. AreFound f.access.now f.name.now f.last f.by_user
        × IfSome f.common (IsCommon f.access.now f.name.now) };
}

impl<'a> Fates<'a> {
    /// For about so many clients.
    pub(crate) fn new(
        alloc: Global,
        view: &'a AccessView<'a>,
        name: &'a TopicName,
        clients: usize,
    ) -> Fates<'a>
        ensures { result ≡ receivers view.entry.now.access.now view.entry.now.sessions.now
            name.entry.now }
    {
        Fates {
            access: view.access,
            finder: SessionFinder::new(view.sessions, clients),
            name,
            common: None,
            last: None,
            count: 0,
            by_user: HashMap::new(alloc),
        }
    }

    /// Where a copy goes for the client, which may read the topic or gets none. One look-up.
    pub(crate) fn fate(&mut self, client: &RcStr, limit: u32) -> Fate
        ensures same { self.new ≡ self.old }
        ensures sent { is_sent result ≡ is_reader self.old.access self.old.sessions self.old.topic
            (rc_str_bytes client.now) }
        ensures waits { waits result
            ≡ (room_for limit self.old.sessions (rc_str_bytes client.now)
            && allowed self.old.access (rc_str_bytes client.now)
            (user_of self.old.sessions (rc_str_bytes client.now)) self.old.topic Reading) }
    {
        let client = client.as_str();
        let Some(session) = self.finder.find(client) else {
            return Fate::Dropped;
        };
        if self.may_read(client, session.user.as_deref()) {
            session.fate(limit)
        } else {
            Fate::Dropped
        }
    }

    // Whether the client with this user name, or without one, may read the topic.
    fn may_read(&mut self, client: &str, user: Option<&'a str>) -> bool
        ensures value { result ≡ allowed self.old.access client.now (option_copied user.entry)
            self.old.topic Reading }
        ensures same { self.new ≡ self.old }
    {
        let Some(acl) = self.access else {
            return true;
        };
        if let Some(found) = self.found(user) {
            return found;
        }
        let may_read = acl.may_read(client, user, self.name);
        self.count = self.count.saturating_add(1);
        if self.is_common() {
            self.last = Some(Found { user, may_read });
            if self.count > FEW {
                // Without memory for it the list is asked again.
                let _ = self.by_user.insert(user, may_read);
            }
        }
        may_read
    }

    // What was found of the clients of this user name, or of those without one, if it is kept.
    fn found(&self, user: Option<&'a str>) -> Option<bool>
        ensures { IfSome result
            (IsFound self.now.access self.now.topic (option_copied user.entry)) }
    {
        let Some(last) = self.last else {
            return None;
        };
        if last.user == user {
            return Some(last.may_read);
        }
        if self.count <= FEW {
            return None;
        }
        self.by_user.get(&user).copied()
    }

    // Whether the list says the same of all clients of a user name. Where it asks for client ids,
    // it is looked through once, if it is asked more than a few times.
    fn is_common(&mut self) -> bool
        ensures common { IsCommon self.old.access self.old.topic result }
        ensures same { self.new ≡ self.old }
    {
        let Some(acl) = self.access else {
            return true;
        };
        if !acl.asks_client() {
            return true;
        }
        if self.count <= FEW {
            return false;
        }
        if let Some(common) = self.common {
            return common;
        }
        let common = !acl.asks_client_about(self.name);
        self.common = Some(common);
        common
    }
}
