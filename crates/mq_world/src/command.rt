ghost use Rattle.std.specs.Prelude.{◌≡◌};
ghost use Rattle.mq_world.specs.World.{is_identifier};
ghost use Rattle.mq_world.specs.Refusals.{is_valid};
ghost use Rattle.mq_world.specs.Views.{request_of};

/// A command of a script. Its texts may be any texts: the router tests them.
#[derive(Debug, Drop)]
pub enum Command {
    /// A client connects, with a user name or without one (MQTT 5.0, section 3.1.4). If it is
    /// connected, this acts first as its disconnect.
    Connect {
        client: String,
        user: Option<String>,
        /// Clean Start: whether a session that is there is discarded with all it has, or is resumed (MQTT 5.0, section
        /// 3.1.2.4).
        clean: bool,
        /// The Session Expiry Interval: for how many seconds the session outlives its connection, 4,294,967,295 for ever
        /// (MQTT 5.0, section 3.1.2.11.2).
        session_expiry: u32,
    },
    /// A client leaves (MQTT 5.0, section 3.14). Its session ends if its Session Expiry Interval is
    /// 0; else the client is away until the interval is over.
    Disconnect {
        client: String,
    },
    /// A client subscribes, or replaces its subscription to the same filter (MQTT 5.0, section 3.8).
    Subscribe {
        client: String,
        filter: String,
        /// 0 to 2.
        qos: u8,
        /// Whether the client gets no copies of its own messages.
        no_local: bool,
        /// Retain As Published: whether copies keep the RETAIN flag of the message.
        rap: bool,
        /// Retain Handling, 0 to 2: whether retained messages are sent always, to a new subscription only, or never.
        handling: u8,
        /// 1 to 268,435,455.
        id: Option<u32>,
    },
    /// A subscription ends (MQTT 5.0, section 3.10).
    Unsubscribe {
        client: String,
        filter: String,
    },
    /// A client publishes a message (MQTT 5.0, section 3.3).
    Publish {
        client: String,
        topic: String,
        payload: String,
        /// 0 to 2.
        qos: u8,
        /// Whether the message is to be retained.
        retain: bool,
        /// The message expiry interval in seconds.
        expiry: Option<u32>,
    },
    /// An access list takes the place of the one that is set; without text there is none then, and all is allowed.
    SetAcl {
        text: Option<String>,
    },
    /// The clock moves. Retained messages whose deadline comes go, and sessions of clients that are
    /// away whose end comes.
    Advance {
        seconds: u64,
    },
    /// Asks for the numbers of nodes, retained messages and subscriptions.
    Stat,
}

impl Command {
    /// Whether each number is in its range. `Router::apply` requires it.
    pub fn is_valid(&self) -> bool
        ensures { result ≡ is_valid (request_of self.now) }
    {
        match self {
            Command::Subscribe {
                qos,
                handling,
                id,
                ..
            } => *qos <= 2 && *handling <= 2 && id.is_none_or(is_identifier),
            Command::Publish { qos, .. } => *qos <= 2,
            _ => true,
        }
    }
}

fn is_identifier(id: u32) -> bool
    ensures { result ≡ is_identifier id }
{
    (1..=268_435_455).contains(&id)
}
