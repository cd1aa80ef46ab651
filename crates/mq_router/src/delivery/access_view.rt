//! Who gets a message: the clients with a session, under an access list or none.
ghost use Rattle.std.specs.Prelude.{◌≡◌};
ghost use Rattle.mq_world.specs.Sessions.{is_reader};

use mq_acl::{Acl, may_read};
use mq_sessions::Sessions;
use mq_subscriptions::ClientTest;
use mq_topic::TopicName;

/// The clients with a session, under an access list or none.
#[derive(Clone, Copy)]
pub(crate) struct AccessView<'a> {
    pub(crate) access: &'a Option<Acl>,
    pub(crate) sessions: &'a Sessions,
}

impl AccessView<'_> {
    /// Whether the client is connected and may read the topic.
    pub(crate) fn is_reader(&self, client: &str, name: &TopicName) -> bool
        ensures { result ≡ is_reader self.now.access.now self.now.sessions.now name.now client.now }
    {
        let Some(session) = self.sessions.get(client) else {
            return false;
        };
        session.is_present() && may_read(self.access, client, session.user.as_deref(), name)
    }
}

/// Those of them that a message of one topic may be sent to.
#[derive(Clone, Copy)]
pub(crate) struct TopicReaders<'a> {
    pub(crate) view: &'a AccessView<'a>,
    pub(crate) name: &'a TopicName,
}

impl ClientTest for TopicReaders<'_> {
    ghost use Rattle.mq_world.specs.Sessions.{is_reader};

    ghost passes = { λ t client. is_reader t.view.now.access.now t.view.now.sessions.now
        t.name.now client };

    fn passes(&self, client: &str) -> bool {
        self.view.is_reader(client, self.name)
    }
}
