ghost use Rattle.std.specs.Prelude.{◌≡◌, ◌≢◌, ◌⊎◌, ◌<◌, MatchResult, IfOk, IfErr, Ok, Err, Some};
ghost use Rattle.std.specs.Prelude.{false, ℕ, List, Option};
ghost use Rattle.std.specs.List.{list_any};
ghost use Rattle.std.specs.Option.{option_copied};
ghost use Rattle.mq_acl.specs.Rows.{out_of_memory, rows_by, rows_of};
ghost use Rattle.mq_acl.specs.AccessLists.{allowed};
ghost use Rattle.mq_acl.specs.Clients.{ask_client, ask_client_about};
ghost use Rattle.mq_topic.specs.Levels.{levels};
ghost use Rattle.mq_acl.specs.Views.{row_view, row_views};
ghost use Rattle.mq_acl.specs.declared.access.Direction.TheVariants.{Reading, Writing};

use crate::access::Direction;
use crate::check::rows_allow;
use crate::clients::{ask_client, rows_ask_about};
use crate::fault::{AclFault, AclKind};
use crate::mosquitto::mosquitto_allows;
use crate::read::read_rows_by;
use crate::refused::refuses;
use crate::row::{Owner, Row};
use crate::rows_by_access::RowsByAccess;
use crate::rules::Rules;
use mq_topic::{LevelText, TopicFilter, TopicName};
use std::alloc::{AllocError, Global};
use std::fmt;
use std::marker::Model;
use std::snapshot::Snapshot;

/// An access list: rows that grant topics to clients or deny them (mosquitto.conf(5), `acl_file`).
pub struct Acl {
    rules: Rules,
    by_access: RowsByAccess,
    /// Whether what they decide may depend on the client id.
    asks_client: bool,
    /// The rows as they stand in the text, for contracts alone.
    order: Snapshot<Vec<Row>>,
}

// Opaque to callers' proofs: one step, and not one for each field (docs/explanation/gate.md).
impl Drop for Acl {
    fn drop(self) {
        let Acl {
            rules: _,
            by_access: _,
            asks_client: _,
            order: _,
        } = self;
    }
}

impl Model for Acl {
    ghost use Rattle.mq_acl.specs.AccessLists.{AccessList};
    ghost use Rattle.mq_acl.specs.Views.{row_views};

    ghost Value = { AccessList };

    ghost use Rattle.std.specs.Prelude.{◌≡◌};
    ghost use Rattle.mq_acl.specs.Clients.{ask_client};
    ghost use Rattle.mq_acl.specs.RowsByAccess.{IsSplit};

    ghost view = { λ acl. record { rules = acl.rules; rows = row_views acl.order.value.items } };

    ghost invariant = { λ acl. IsSplit acl.order.value.items acl.by_access
        × (acl.asks_client ≡ ask_client acl.rules (row_views acl.order.value.items)) };
}

impl Acl {
    /// The access list with this text, read by our own rules, or its first faulty line. A line is
    /// empty, a comment (`#`), `user NAME`, or `topic` or `pattern` with an access (`read`,
    /// `write`, `readwrite`, `deny`; without one, read and write) and a topic filter. How lines and
    /// words are cut, and which faults there are, is our own.
    pub fn read(alloc: Global, text: &str) -> Result<Acl, AclFault>
        ensures rules { IfOk result (λ acl. acl.rules ≡ Rules.Own) }
        ensures rows { MatchResult result (λ acl. rows_of text.now ≡ Ok acl.rows)
            (λ fault. (fault ≡ out_of_memory) ⊎ (rows_of text.now ≡ Err fault)) }
        ensures memory { IfErr result
            (λ fault. fault.kind ≡ AclKind.Memory → fault ≡ out_of_memory) }
        ensures line { IfErr result (λ fault. fault.kind ≢ AclKind.Memory
            → (rows_of text.now ≡ Err fault) × (0 < fault.line)) }
    {
        Acl::read_by(alloc, Rules::Own, text)
    }

    /// The access list with this text, read by these rules, or its first faulty line. By those of
    /// mosquitto words are parted by spaces alone, a comment begins at the first byte of its line,
    /// and the marks of a `pattern` line may stand within levels.
    pub fn read_by(alloc: Global, rules: Rules, text: &str) -> Result<Acl, AclFault>
        ensures rules { IfOk result (λ acl. acl.rules ≡ rules) }
        ensures rows { MatchResult result (λ acl. rows_by rules text.now ≡ Ok acl.rows)
            (λ fault. (fault ≡ out_of_memory) ⊎ (rows_by rules text.now ≡ Err fault)) }
        ensures memory { IfErr result
            (λ fault. fault.kind ≡ AclKind.Memory → fault ≡ out_of_memory) }
        ensures line { IfErr result (λ fault. fault.kind ≢ AclKind.Memory
            → (rows_by rules text.now ≡ Err fault) × (0 < fault.line)) }
    {
        let rows = read_rows_by(alloc, rules, text)?;
        match Acl::of(alloc, rules, rows) {
            Ok(acl) => Ok(acl),
            Err(_) => Err(AclFault {
                line: 0,
                kind: AclKind::Memory,
            }),
        }
    }

    /// The access list with these rows, which decide by these rules.
    pub fn of(alloc: Global, rules: Rules, rows: Vec<Row>) -> Result<Acl, AllocError>
        ensures { IfOk result (λ acl. acl ≡ record { rules = rules; rows = row_views rows.items }) }
    {
        let order = Snapshot::of(&rows);
        let asks_client = ask_client(rules, &rows);
        let by_access = RowsByAccess::of(alloc, rows)?;
        Ok(Acl {
            rules,
            by_access,
            asks_client,
            order,
        })
    }

    /// Whether what the list allows may depend on the client id. Where it doesn't, all clients of a
    /// user name, and all without one, may do the same.
    pub fn asks_client(&self) -> bool
        ensures value { result ≡ ask_client self.now.rules self.now.rows }
        ensures same { result ≡ false → (a b : List ℕ) (user : Option (List ℕ)) (name : List ℕ)
            (direction : Direction) → allowed (Some self.now) a user name direction
            ≡ allowed (Some self.now) b user name direction }
    {
        self.asks_client
    }

    /// The same of this topic alone. It looks at the rows for all clients.
    pub fn asks_client_about(&self, name: &TopicName) -> bool
        ensures value { result ≡ ask_client_about self.now.rules name.now self.now.rows }
        ensures same { result ≡ false → (a b : List ℕ) (user : Option (List ℕ))
            (direction : Direction) → allowed (Some self.now) a user name.now direction
            ≡ allowed (Some self.now) b user name.now direction }
    {
        match self.rules {
            Rules::Own => rows_ask_about(&self.by_access, name),
            Rules::Mosquitto => self.asks_client,
        }
    }

    // Whether the rows allow it by the list's rules, and the broker doesn't refuse it.
    #[tactic(auto, unfolding(crate::specs::AccessLists::allowed))]
    fn allows(
        &self,
        client: &str,
        user: Option<&str>,
        name: &TopicName,
        direction: Direction,
    ) -> bool
        ensures { result ≡ allowed (Some self.now) client.now (option_copied user.entry) name.now
            direction }
    {
        if refuses(self.rules, direction, name) {
            return false;
        }
        match self.rules {
            Rules::Own => rows_allow(&self.by_access, client, user, name, direction),
            Rules::Mosquitto => mosquitto_allows(&self.by_access, client, user, name, direction),
        }
    }

    /// Whether the client with this client id, and with this user name or none, may read the topic
    /// by the list's rules. It takes no memory, and looks at the rows for all clients and at those
    /// for this user name, or for clients without one, alone.
    pub fn may_read(&self, client: &str, user: Option<&str>, name: &TopicName) -> bool
        ensures { result ≡ allowed (Some self.now) client.now (option_copied user.entry) name.now
            Reading }
    {
        self.allows(client, user, name, Direction::Reading)
    }

    /// Whether this client may write the topic, as `may_read`.
    pub fn may_write(&self, client: &str, user: Option<&str>, name: &TopicName) -> bool
        ensures { result ≡ allowed (Some self.now) client.now (option_copied user.entry) name.now
            Writing }
    {
        self.allows(client, user, name, Direction::Writing)
    }
}

impl fmt::Debug for Acl {
    fn fmt<W: fmt::Write>(&self, f: &mut fmt::Formatter<W>) -> fmt::Result {
        fmt::Debug::fmt(&self.by_access, f)
    }
}
