//! The search of a script, line by line.
ghost use Rattle.std.specs.Prelude.{◌≡◌, ◌≢◌, ◌+◌, ◌<◌, ◌^◌, ◌≤◌, ◌&&◌, IfOk, IfErr, OnOk, Ok, Some, None};
ghost use Rattle.std.specs.Prelude.{string_bytes, option_map, length};
ghost use Rattle.std.specs.Option.{option_copied};
ghost use Rattle.mq_world.specs.Refusals.{is_client_id};
ghost use Rattle.mq_world.specs.Sessions.{is_connected};
ghost use Rattle.mq_world.specs.World.{Advance, Connect, Disconnect, Subscribe};
ghost use Rattle.mq_world.specs.World.{SubscriptionOptions, Unsubscribe};
ghost use Rattle.mq_world.specs.Views.{request_of};
ghost use Rattle.mq_jsonl.specs.Lines.{command_in};
ghost use Rattle.mq_jsonl.specs.Reading.{reading};

use crate::connections::{end_sessions, take_over};
use crate::counts::{Counts, LineKind};
use crate::log::begins_as_log;
use crate::question::{SearchFault, is_taken, is_unreached};
use crate::reach::Reach;
use crate::subscription::Subscription;
use crate::tracked::Tracked;
use mq_jsonl::{LineFault, read_line};
use mq_sessions::Sessions;
use mq_topic::SubFilter;
use mq_world::{Clock, Command, is_client_id, is_user_name};
use std::alloc::{AllocError, Global};
use std::rc::RcStr;

/// What is found in a script.
pub struct Findings {
    /// The subscriptions that can receive nothing, in the order of their lines.
    pub unreached: Vec<Subscription>,
    /// How many lines and subscriptions the script has.
    pub counts: Counts,
    /// Whether the first line begins as one of a log does.
    pub is_log: bool,
}

// Opaque to callers' proofs: one step, and not one for each field (docs/explanation/gate.md).
impl Drop for Findings {
    fn drop(self) {
        let Findings {
            unreached: _,
            counts: _,
            is_log: _,
        } = self;
    }
}

/// How far a search has come.
pub(crate) struct Search {
    sessions: Sessions,
    clock: Clock,
    tracked: Tracked,
    pub counts: Counts,
    is_log: bool,
    ghost commands: { counts.commands ≤ counts.lines },
    ghost subscriptions: { counts.subscriptions ≤ counts.lines },
    ghost faulty: { counts.faulty ≤ counts.lines },
}

// Opaque to callers' proofs: one step, and not one for each field (docs/explanation/gate.md).
impl Drop for Search {
    fn drop(self) {
        let Search {
            sessions: _,
            clock: _,
            tracked: _,
            counts: _,
            is_log: _,
        } = self;
    }
}

// What a line is counted as that says no command, for this fault.
fn no_command(fault: LineFault) -> Result<LineKind, SearchFault>
    ensures ok { IfOk result (λ kind. (kind ≡ LineKind.NoCommand) × (fault ≢ LineFault.Memory)) }
    ensures err { IfErr result (λ shown. shown ≡ SearchFault.Memory) }
{
    match fault {
        LineFault::Memory => Err(SearchFault::Memory),
        _ => Ok(LineKind::NoCommand),
    }
}

fn copied(alloc: Global, text: Option<&str>) -> Result<Option<String>, AllocError>
    ensures { IfOk result (λ copy. option_map string_bytes copy ≡ option_copied text.entry) }
{
    match text {
        None => Ok(None),
        Some(text) => Ok(Some(String::from_str(alloc, text)?)),
    }
}

impl Search {
    ghost use Rattle.std.specs.Prelude.{List, ℕ, ◌++◌, ◌∷◌, [], map};
    ghost use Rattle.std.specs.Option.{option_and_then};
    ghost use Rattle.mq_acl.specs.AccessLists.{AccessList};
    ghost use Rattle.mq_reach.specs.Faults.{FailsBy, IsFaultAmong};
    ghost use Rattle.mq_reach.specs.Subscriptions.{subscriptions};
    ghost use Rattle.mq_reach.specs.Search.{Applies, IsFound, IsSearched, kind_of, shown_by};
    ghost use Rattle.mq_reach.specs.Tracked.{subscription_view};

    pub fn new(alloc: Global) -> Search
        ensures searched { (list : AccessList) → IsSearched list [] result }
        ensures lines { result.counts.lines ≡ 0 }
    {
        Search {
            sessions: Sessions::new(alloc),
            clock: Clock::start(),
            tracked: Tracked::new(alloc),
            counts: Counts::new(),
            is_log: false,
        }
    }

    // A client connects, unless its client id or its user name can't be one.
    fn connect(
        &mut self,
        alloc: Global,
        list: &Reach,
        client: &str,
        user: Option<String>,
        clean: bool,
        session_expiry: u32,
    ) -> Result<(), SearchFault>
        ensures ok { OnOk result (Applies list.now (Some (Connect client.now
            (option_map string_bytes user) clean session_expiry)) self.old self.new) }
        ensures err { IfErr result (FailsBy list.now (Some (Connect client.now
            (option_map string_bytes user) clean session_expiry)) self.old) }
    {
        if !is_client_id(client) {
            return Ok(());
        }
        if !is_user_name(user.as_deref()) {
            return Ok(());
        }
        take_over(
            &mut self.tracked,
            &self.sessions,
            alloc,
            list,
            client,
            user.as_deref(),
            clean,
        )?;
        let id = RcStr::from_str(alloc, client)?;
        self.sessions.insert(alloc, id, user, session_expiry)?;
        Ok(())
    }

    // Whether a command of this client may act: it is one, and connected.
    fn is_connected(&self, client: &str) -> bool
        ensures { result ≡ (is_client_id client.now && is_connected self.now.sessions client.now) }
    {
        is_client_id(client) && self.sessions.connected(client).is_some()
    }

    // A connection ends, if there is one.
    fn disconnect(&mut self, client: &str)
        ensures { (list : AccessList) → Applies list (Some (Disconnect client.now)) self.old
            self.new }
    {
        if !self.is_connected(client) {
            return;
        }
        if self.sessions.outlives(client) {
            self.sessions.disconnect(client, self.clock);
            return;
        }
        self.sessions.remove(client);
        self.tracked.close_all(client);
    }

    // The clock moves, unless past its last moment.
    fn advance(&mut self, seconds: u64)
        ensures { (list : AccessList) → Applies list (Some (Advance seconds)) self.old self.new }
    {
        let Some(clock) = self.clock.later(seconds) else {
            return;
        };
        self.clock = clock;
        end_sessions(&mut self.sessions, &mut self.tracked, clock.moment);
    }

    // The subscription that a subscribe makes, if a broker takes it.
    fn subscription(
        &self,
        alloc: Global,
        client: String,
        filter: String,
        no_local: bool,
    ) -> Result<Option<Subscription>, AllocError>
        requires { self.now.counts.lines + 1 < 2 ^ 64 }
        ensures { (options : SubscriptionOptions) → options.no_local ≡ no_local
            → IfOk result (λ made. option_map subscription_view made
            ≡ shown_by (self.now.counts.lines + 1) self.now.sessions
            (Subscribe (string_bytes client) (string_bytes filter) options)) }
    {
        if !self.is_connected(client.as_str()) {
            return Ok(None);
        }
        if !is_taken(filter.as_str(), no_local) {
            return Ok(None);
        }
        let user = copied(alloc, self.sessions.user(client.as_str()))?;
        Ok(Some(Subscription {
            line: self.counts.lines + 1,
            client,
            user,
            filter,
        }))
    }

    // A client subscribes.
    fn subscribe(
        &mut self,
        alloc: Global,
        list: &Reach,
        client: String,
        filter: String,
        no_local: bool,
    ) -> Result<LineKind, SearchFault>
        requires { self.old.counts.lines + 1 < 2 ^ 64 }
        ensures ok { (options : SubscriptionOptions) → options.no_local ≡ no_local → OnOk result
            (Applies list.now (Some (Subscribe (string_bytes client) (string_bytes filter) options))
            self.old self.new) }
        ensures kind { (options : SubscriptionOptions) → options.no_local ≡ no_local
            → let request = Subscribe (string_bytes client) (string_bytes filter) options in
            IfOk result (λ kind. kind ≡ kind_of (shown_by (self.old.counts.lines + 1)
            self.old.sessions request) (Ok (Some request))) }
        ensures err { (options : SubscriptionOptions) → options.no_local ≡ no_local
            → IfErr result (FailsBy list.now (Some (Subscribe (string_bytes client)
            (string_bytes filter) options)) self.old) }
    {
        let Some(subscription) = self.subscription(alloc, client, filter, no_local)? else {
            return Ok(LineKind::Command);
        };
        self.tracked
            .close(subscription.client.as_str(), subscription.filter.as_str());
        let unreached = is_unreached(alloc, list, &subscription, subscription.user.as_deref())?;
        if !unreached {
            return Ok(LineKind::Subscription);
        }
        self.tracked.add(subscription)?;
        Ok(LineKind::Subscription)
    }

    // A client unsubscribes, if it is connected.
    fn unsubscribe(&mut self, client: &str, filter: &str)
        ensures { (list : AccessList) → Applies list (Some (Unsubscribe client.now filter.now))
            self.old self.new }
    {
        if !self.is_connected(client) {
            return;
        }
        if !SubFilter::is_valid(filter) {
            return;
        }
        self.tracked.close(client, filter);
    }

    fn apply(
        &mut self,
        alloc: Global,
        list: &Reach,
        command: Command,
    ) -> Result<LineKind, SearchFault>
        requires { self.old.counts.lines + 1 < 2 ^ 64 }
        ensures ok { OnOk result (Applies list.now (Some (request_of command)) self.old self.new) }
        ensures kind { IfOk result (λ kind. kind ≡ kind_of (shown_by (self.old.counts.lines + 1)
            self.old.sessions (request_of command)) (Ok (Some (request_of command)))) }
        ensures err { IfErr result (FailsBy list.now (Some (request_of command)) self.old) }
    {
        match command {
            Command::Connect {
                client,
                user,
                clean,
                session_expiry,
            } => {
                self.connect(alloc, list, client.as_str(), user, clean, session_expiry)?;
                Ok(LineKind::Command)
            }
            Command::Disconnect { client } => {
                self.disconnect(client.as_str());
                Ok(LineKind::Command)
            }
            Command::Subscribe {
                client,
                filter,
                no_local,
                ..
            } => self.subscribe(alloc, list, client, filter, no_local),
            Command::Unsubscribe { client, filter } => {
                self.unsubscribe(client.as_str(), filter.as_str());
                Ok(LineKind::Command)
            }
            Command::Advance { seconds } => {
                self.advance(seconds);
                Ok(LineKind::Command)
            }
            Command::Publish { .. } => Ok(LineKind::Command),
            Command::SetAcl { .. } => Ok(LineKind::Command),
            Command::Stat => Ok(LineKind::Command),
        }
    }

    // What the line is counted as.
    fn read(&mut self, alloc: Global, list: &Reach, line: &[u8]) -> Result<LineKind, SearchFault>
        requires { self.old.counts.lines + 1 < 2 ^ 64 }
        ensures ok { OnOk result (Applies list.now (command_in (reading line.now)) self.old
            self.new) }
        ensures kind { IfOk result (λ kind. kind ≡ kind_of (option_and_then
            (shown_by (self.old.counts.lines + 1) self.old.sessions) (command_in
            (reading line.now)))
            (reading line.now)) }
        ensures err { (before : List (List ℕ)) → IsSearched list.now before self.old
            → IfErr result (IsFaultAmong list.now (subscriptions (before ++ line.now ∷ []))) }
    {
        match read_line(alloc, line) {
            Ok(None) => Ok(LineKind::Blank),
            Ok(Some(command)) => self.apply(alloc, list, command),
            Err(fault) => no_command(fault),
        }
    }

    /// Searches the next line.
    pub fn take_line(&mut self, alloc: Global, list: &Reach, line: &[u8]) -> Result<(), SearchFault>
        requires { self.old.counts.lines + 1 < 2 ^ 64 }
        ensures searched { (before : List (List ℕ))
            → IsSearched list.now before self.old
            → OnOk result (IsSearched list.now (before ++ line.now ∷ []) self.new) }
        ensures lines { OnOk result (self.new.counts.lines ≡ self.old.counts.lines + 1) }
        ensures err { (before : List (List ℕ)) → IsSearched list.now before self.old
            → IfErr result (IsFaultAmong list.now (subscriptions (before ++ line.now ∷ []))) }
    {
        let kind = self.read(alloc, list, line)?;
        if self.counts.lines == 0 {
            self.is_log = begins_as_log(line);
        }
        self.counts = self.counts.with_line(kind);
        Ok(())
    }

    /// What is found so far.
    pub fn findings(self, alloc: Global) -> Result<Findings, AllocError>
        ensures { (list : AccessList) (lines : List (List ℕ)) → IsSearched list lines self
            → IfOk result (IsFound list lines) }
    {
        let Search {
            sessions: _,
            clock: _,
            tracked,
            counts,
            is_log,
        } = self;
        Ok(Findings {
            unreached: tracked.unreached(alloc)?,
            counts,
            is_log,
        })
    }
}
