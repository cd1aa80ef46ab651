ghost use Rattle.std.specs.Prelude.{◌≡◌, ◌≢◌, ◌+◌, ◌<◌, ◌^◌, [], Some, None, IsTrue, IfOk, OnOk};
ghost use Rattle.std.specs.Prelude.{OnErr, IfErr, IfSome, map};
ghost use Rattle.std.specs.Option.{option_copied};
ghost use Rattle.std.specs.Rc.{rc_str_bytes};
ghost use Rattle.mq_world.specs.Refusals.{is_valid, takes_no_memory, refusal};
ghost use Rattle.mq_world.specs.Clock.{deadline_of};
ghost use Rattle.mq_world.specs.World as world;
ghost use Rattle.mq_world.specs.World.{World, empty_world, fresh_world, ruled, within};
ghost use Rattle.mq_router.specs.StandsFor.{StandsFor, AnswersFor, CountsFor};
ghost use Rattle.mq_router.specs.router.Effects.{Applied, CountsSteps, world_of};
ghost use Rattle.mq_router.specs.router.Effects.{copies_sent, steps_sent, steps_to};
ghost use Rattle.mq_router.specs.router.Effects.{counts_now, copies_now, queued_now};
ghost use Rattle.mq_router.specs.router.Effects.{members_now};
ghost use Rattle.mq_world.specs.Views.{limits_of, request_of, reply_of};
ghost use Rattle.mq_world.specs.Views.{options_of};
ghost use Rattle.mq_subscriptions.specs.SubFilters.{sub_filter_row};
ghost use Rattle.mq_world.specs.Views.{copies_in};
ghost use Rattle.mq_subscriptions.specs.Turns.{turns_in};
ghost use Rattle.mq_router.specs.router.Views.{published_message};
ghost use Rattle.mq_world.specs.Views.{message_of};
ghost use Rattle.mq_sessions.specs.Views.{queue_item_of};

mod checks;
mod ended;
mod started;

use crate::delivery::access_view::AccessView;
use crate::delivery::{Deliveries, make_copies};
use crate::replies::{published, reason_to_leave, with_reason};
use crate::texts::read_access;
use ended::end_sessions;
use mq_acl::{Acl, Rules};
use mq_retained::{Receiver, Retained};
use mq_sessions::Sessions;
use mq_subscriptions::Subscriptions;
use mq_topic::SubFilter;
use mq_tree::Steps;
use mq_world::{
    Answer, Clock, Command, Delivery, Limits, Message, Outcome, Refusal, SubscriptionOptions,
    is_client_id, is_user_name,
};
use started::start_session;
use std::alloc::{AllocError, Global};
use std::marker::Model;
use std::rc::RcStr;

/// A clock, sessions, subscriptions, retained messages and an access list, or none, within limits.
/// It keeps the allocator that it was made with.
pub struct Router {
    alloc: Global,
    limits: Limits,
    rules: Rules,
    clock: Clock,
    access: Option<Acl>,
    sessions: Sessions,
    subscriptions: Subscriptions,
    retained: Retained,
}

// Opaque to callers' proofs: one step, and not one for each field (docs/explanation/gate.md).
impl Drop for Router {
    fn drop(self) {
        let Router {
            alloc: _,
            limits: _,
            rules: _,
            clock: _,
            access: _,
            sessions: _,
            subscriptions: _,
            retained: _,
        } = self;
    }
}

impl Model for Router {
    ghost use Rattle.mq_router.specs.StandsFor.{State};

    ghost Value = { State };

    ghost use Rattle.mq_router.specs.router.Views.{state_of};
    ghost use Rattle.mq_retained.specs.Stored.{AreNear};
    ghost use Rattle.mq_sessions.specs.Near.{AllReached};

    ghost view = { state_of };

    ghost invariant = { λ a. AreNear a.clock.moment a.retained.messages
        × AllReached a.clock.moment a.sessions };
}

impl Router {
    /// A router without sessions and without an access list, within the limits of `Limits::new`:
    /// everything is allowed. It takes no memory.
    pub fn new(alloc: Global) -> Router
        ensures { StandsFor result empty_world }
    {
        Router::with_limits(alloc, None, Limits::new())
    }

    /// A router without sessions, with an access list, within the limits of `Limits::new`.
    pub fn with_acl(alloc: Global, acl: Acl) -> Router
        ensures { StandsFor result (fresh_world (Some acl)) }
    {
        Router::with_limits(alloc, Some(acl), Limits::new())
    }

    /// A router without sessions, with an access list or without one, within these limits.
    pub fn with_limits(alloc: Global, acl: Option<Acl>, limits: Limits) -> Router
        ensures { StandsFor result (within (limits_of limits) (fresh_world acl)) }
    {
        Router {
            alloc,
            limits,
            rules: Rules::Own,
            clock: Clock::start(),
            access: acl,
            sessions: Sessions::new(alloc),
            subscriptions: Subscriptions::new(alloc),
            retained: Retained::new(alloc),
        }
    }

    /// The router, where commands bring access lists of these rules. The one that it has stays.
    pub fn with_rules(self, rules: Rules) -> Router
        ensures { (w : World) → StandsFor self w → StandsFor result (ruled rules w) }
    {
        let mut router = self;
        router.rules = rules;
        router
    }

    /// Answers a command as each world does that the router stands for, or refuses it. A refusal leaves the router as
    /// it is, lack of memory too.
    pub fn apply(&mut self, command: &Command) -> Result<Answer, Refusal>
        requires { IsTrue (is_valid (request_of command.now)) }
        ensures answered { AnswersFor self.old (request_of command.now) result self.new }
        ensures err { OnErr result (self.new ≡ self.old) }
        ensures no_memory { IsTrue (takes_no_memory (request_of command.now))
            → IfErr result (λ refusal. refusal ≢ Refusal.Memory) }
    {
        let mut steps = Steps::new();
        self.apply_counted(command, &mut steps)
    }

    /// `apply`, and its steps are added to those that there are: in a publish the nodes entered among the filters, in a
    /// subscribe that asks for retained messages those entered among the topics, in an advance the messages removed, in
    /// another command none. A refusal adds none, but lack of memory may add any.
    pub fn apply_counted(&mut self, command: &Command, steps: &mut Steps) -> Result<Answer, Refusal>
        requires { IsTrue (is_valid (request_of command.now)) }
        ensures answered { AnswersFor self.old (request_of command.now) result self.new }
        ensures counted { CountsFor self.old (request_of command.now) result steps.old steps.new }
        ensures err { OnErr result (self.new ≡ self.old) }
        ensures no_memory { IsTrue (takes_no_memory (request_of command.now))
            → IfErr result (λ refusal. refusal ≢ Refusal.Memory) }
    {
        match command {
            Command::Connect {
                client,
                user,
                clean,
                session_expiry,
            } => self.connect(client, user.as_deref(), *clean, *session_expiry),
            Command::Disconnect { client } => self.disconnect(client),
            Command::Subscribe {
                client,
                filter,
                qos,
                no_local,
                rap,
                handling,
                id,
            } => {
                let options = SubscriptionOptions {
                    qos: *qos,
                    no_local: *no_local,
                    rap: *rap,
                    handling: *handling,
                    id: *id,
                };
                self.subscribe(client, filter, options, steps)
            }
            Command::Unsubscribe { client, filter } => self.unsubscribe(client, filter),
            Command::Publish {
                client,
                topic,
                payload,
                qos,
                retain,
                expiry,
            } => self.publish(client, topic, payload, *qos, *retain, *expiry, steps),
            Command::SetAcl { text } => self.set_acl(text.as_deref()),
            Command::Advance { seconds } => self.advance(*seconds, steps),
            Command::Stat => Ok(self.stat()),
        }
    }

    fn connect(
        &mut self,
        client: &str,
        user: Option<&str>,
        clean: bool,
        session_expiry: u32,
    ) -> Result<Answer, Refusal>
        ensures applied { Applied self.old
            (world.Connect client.now (option_copied user.entry) clean
            session_expiry) result self.new }
        ensures err { OnErr result (self.new ≡ self.old) }
    {
        if !is_client_id(client) {
            return Err(Refusal::ClientId);
        }
        if !is_user_name(user) {
            return Err(Refusal::UserName);
        }
        let resumed = start_session(
            &mut self.sessions,
            self.alloc,
            self.clock,
            client,
            user,
            clean,
            session_expiry,
        )?;
        let Some(copies) = resumed else {
            self.subscriptions.remove_client(client);
            return Ok(with_reason(self.alloc, 0));
        };
        Ok(Answer {
            copies,
            outcome: Outcome::Reason(0),
        })
    }

    fn disconnect(&mut self, client: &str) -> Result<Answer, Refusal>
        ensures applied { Applied self.old (world.Disconnect client.now) result self.new }
        ensures err { OnErr result (self.new ≡ self.old) }
        ensures no_memory { IfErr result (λ refusal. refusal ≢ Refusal.Memory) }
    {
        self.check_client(client)?;
        if self.sessions.outlives(client) {
            self.sessions.disconnect(client, self.clock);
            return Ok(with_reason(self.alloc, 0));
        }
        self.sessions.remove(client);
        self.subscriptions.remove_client(client);
        Ok(with_reason(self.alloc, 0))
    }

    fn subscribe(
        &mut self,
        client: &str,
        text: &str,
        options: SubscriptionOptions,
        steps: &mut Steps,
    ) -> Result<Answer, Refusal>
        ensures applied { Applied self.old
            (world.Subscribe client.now text.now (options_of options)) result
            self.new }
        ensures counted { CountsSteps self.old
            (world.Subscribe client.now text.now (options_of options)) result steps.old steps.new }
        ensures err { OnErr result (self.new ≡ self.old) }
    {
        let (id, sub_filter) = self.check_subscribe(client, text, options)?;
        let copies = self.copies_sent(&id, &sub_filter, options, steps)?;
        self.subscriptions.insert(&id, text, &sub_filter, options)?;
        Ok(Answer {
            copies,
            outcome: Outcome::Reason(options.qos),
        })
    }

    // The copies of retained messages that a subscribe sends.
    fn copies_sent(
        &self,
        client: &RcStr,
        sub_filter: &SubFilter,
        options: SubscriptionOptions,
        steps: &mut Steps,
    ) -> Result<Vec<Delivery>, AllocError>
        ensures copies { IfOk result (λ copies. copies_in copies
            ≡ copies_sent self.now
            (sub_filter_row (rc_str_bytes client.now) sub_filter.now options)) }
        ensures count { OnOk result (steps.new ≡ steps.old + steps_sent self.now
            (sub_filter_row (rc_str_bytes client.now) sub_filter.now options)) }
    {
        if !self
            .subscriptions
            .asks_for_retained(client.as_str(), sub_filter, options)
        {
            return Ok(Vec::new(self.alloc));
        }
        let receiver = Receiver {
            access: &self.access,
            clock: self.clock,
            user: self.sessions.user(client.as_str()),
            client,
            filter: &sub_filter.filter,
            options,
        };
        self.retained.copies(&receiver, steps)
    }

    fn unsubscribe(&mut self, client: &str, text: &str) -> Result<Answer, Refusal>
        ensures applied { Applied self.old (world.Unsubscribe client.now text.now) result self.new }
        ensures err { OnErr result (self.new ≡ self.old) }
        ensures no_memory { IfErr result (λ refusal. refusal ≢ Refusal.Memory) }
    {
        self.check_client(client)?;
        if !SubFilter::is_valid(text) {
            return Err(Refusal::TopicFilter);
        }
        let existed = self.subscriptions.remove(client, text);
        Ok(with_reason(self.alloc, reason_to_leave(existed)))
    }

    // All that refuses it comes first.
    fn publish(
        &mut self,
        client: &str,
        topic: &str,
        payload: &str,
        qos: u8,
        retain: bool,
        expiry: Option<u32>,
        steps: &mut Steps,
    ) -> Result<Answer, Refusal>
        ensures applied { Applied self.old
            (world.Publish (published_message client.now topic.now payload.now qos retain expiry))
            result self.new }
        ensures counted { CountsSteps self.old
            (world.Publish (published_message client.now topic.now payload.now qos retain expiry))
            result
            steps.old steps.new }
        ensures err { OnErr result (self.new ≡ self.old) }
    {
        let (id, name) = self.check_publish(client, topic)?;
        let deadline = self.clock.deadline(expiry);
        let message = Message {
            publisher: &id,
            topic: &name,
            payload,
            qos,
            retain,
            expiry,
            deadline,
        };
        if self.retained.is_full(self.limits.retained, &message) {
            return Err(Refusal::RetainedFull);
        }
        self.deliver(&message, steps)
    }

    // All copies are made before anything changes; then the message is stored, or nothing changes;
    // the turns and the copies that begin to wait, which cannot fail, come last.
    fn deliver(&mut self, message: &Message, steps: &mut Steps) -> Result<Answer, Refusal>
        requires value { message.now.deadline ≡ deadline_of self.old.moment message.now.expiry }
        requires near { IfSome message.now.deadline
            (λ deadline. deadline < self.old.moment + 2 ^ 32) }
        ensures applied { refusal (world_of self.old) (world.Publish (message_of message.now)) ≡ None
            → Applied self.old (world.Publish (message_of message.now)) result self.new }
        ensures counted { CountsSteps self.old (world.Publish (message_of message.now)) result
            steps.old steps.new }
        ensures err { OnErr result (self.new ≡ self.old) }
    {
        let made = self.make_copies(message, steps)?;
        self.retained.publish(message)?;
        self.subscriptions.serve_all(made.served.as_slice());
        let waits = !made.queued.is_empty();
        self.sessions.queue_all(self.limits.queued, made.queued);
        Ok(published(made.copies, waits))
    }

    // The copies that a publish sends, and those that begin to wait.
    fn make_copies(&self, message: &Message, steps: &mut Steps) -> Result<Deliveries, AllocError>
        ensures copies { IfOk result
            (λ m. copies_in m.copies ≡ copies_now self.now (message_of message.now)) }
        ensures queued { IfOk result (λ m. map queue_item_of m.queued.items
            ≡ queued_now self.now (message_of message.now) message.now.deadline) }
        ensures served { IfOk result
            (λ m. turns_in m.served ≡ members_now self.now (message_of message.now)) }
        ensures count { OnOk result (steps.new ≡ steps.old + steps_to self.now
            (world.Publish (message_of message.now))) }
    {
        let view = AccessView {
            access: &self.access,
            sessions: &self.sessions,
        };
        make_copies(
            self.alloc,
            &view,
            &self.subscriptions,
            message,
            self.limits.queued,
            steps,
        )
    }

    fn set_acl(&mut self, text: Option<&str>) -> Result<Answer, Refusal>
        ensures applied { Applied self.old (world.SetAcl (option_copied text.entry)) result
            self.new }
        ensures err { OnErr result (self.new ≡ self.old) }
    {
        let access = read_access(self.alloc, self.rules, text)?;
        self.access = access;
        Ok(with_reason(self.alloc, 0))
    }

    fn advance(&mut self, seconds: u64, steps: &mut Steps) -> Result<Answer, Refusal>
        ensures applied { Applied self.old (world.Advance seconds) result self.new }
        ensures counted { CountsSteps self.old (world.Advance seconds) result steps.old steps.new }
        ensures err { OnErr result (self.new ≡ self.old) }
        ensures no_memory { IfErr result (λ refusal. refusal ≢ Refusal.Memory) }
    {
        let Some(clock) = self.clock.later(seconds) else {
            return Err(Refusal::ClockTooFar);
        };
        self.clock = clock;
        end_sessions(&mut self.sessions, &mut self.subscriptions, clock.moment);
        self.retained.advance(clock.moment, steps);
        Ok(with_reason(self.alloc, 0))
    }

    fn stat(&self) -> Answer
        ensures { reply_of result ≡ record { copies = []; outcome = counts_now self.now } }
    {
        let nodes = self.subscriptions.nodes();
        Answer {
            copies: Vec::new(self.alloc),
            outcome: Outcome::Counts {
                nodes: nodes.saturating_add(self.retained.nodes()),
                retained: self.retained.len(),
                subscriptions: self.subscriptions.len(),
            },
        }
    }
}
