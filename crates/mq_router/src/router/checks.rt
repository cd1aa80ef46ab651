//! Who may do what a command asks.
ghost use Rattle.std.specs.Prelude.{◌≡◌, Some, None, IfOk, IfErr, ◌⊎◌};
ghost use Rattle.std.specs.Option.{option_copied};
ghost use Rattle.std.specs.Rc.{rc_str_bytes};
ghost use Rattle.mq_world.specs.Refusals.{client_conditions, first_refusal, refusal};
ghost use Rattle.mq_world.specs.Sessions.{user_of};
ghost use Rattle.mq_world.specs.World as world;
ghost use Rattle.mq_world.specs.Views.{options_of};
ghost use Rattle.mq_subscriptions.specs.SubFilters.{IsAskedBy};
ghost use Rattle.mq_router.specs.StandsFor.{Refuses};
ghost use Rattle.mq_router.specs.router.Effects.{refused_by, sender_conditions, world_of};

use super::Router;
use crate::texts::{is_shared_no_local, parse_filter, parse_name};
use mq_acl::may_write;
use mq_sessions::Client;
use mq_topic::{SubFilter, TopicName};
use mq_world::{Refusal, SubscriptionOptions, is_client_id};
use std::rc::RcStr;

impl Router {
    /// The client of a command other than connect, whose id has to be valid, and which has to be connected.
    pub(super) fn check_client(&self, client: &str) -> Result<Client<'_>, Refusal>
        ensures refused { refused_by result ≡ first_refusal
            (client_conditions self.now.sessions client.now) }
        ensures same { IfOk result (λ found. rc_str_bytes found.id.now ≡ client.now) }
        ensures user { IfOk result (λ found.
            option_copied found.user ≡ user_of self.now.sessions client.now) }
    {
        if !is_client_id(client) {
            return Err(Refusal::ClientId);
        }
        self.sessions.connected(client).ok_or(Refusal::NotConnected)
    }

    /// The client's id and the filter of a subscribe that is not refused.
    pub(super) fn check_subscribe(
        &self,
        client: &str,
        text: &str,
        options: SubscriptionOptions,
    ) -> Result<(RcStr, SubFilter), Refusal>
        ensures ok { IfOk result (λ asked. (rc_str_bytes asked.0 ≡ client.now)
            × IsAskedBy text.now asked.1
            × (refusal (world_of self.now)
            (world.Subscribe client.now text.now (options_of options)) ≡ None)) }
        ensures err { IfErr result (λ refusal. Refuses (world_of self.now)
            (world.Subscribe client.now text.now (options_of options)) refusal) }
    {
        let id = self.check_client(client)?.id.clone()?;
        let sub_filter = parse_filter(self.alloc, text)?;
        if is_shared_no_local(&sub_filter, options.no_local) {
            return Err(Refusal::SharedNoLocal);
        }
        Ok((id, sub_filter))
    }

    /// The client's id and the topic name of a publish, by a client that may write there.
    pub(super) fn check_publish(
        &self,
        client: &str,
        topic: &str,
    ) -> Result<(RcStr, TopicName), Refusal>
        ensures ok { IfOk result (λ sender. (rc_str_bytes sender.0 ≡ client.now)
            × (sender.1 ≡ topic.now)
            × (first_refusal (sender_conditions self.now client.now topic.now) ≡ None)) }
        ensures err { IfErr result (λ refusal. (refusal ≡ Refusal.Memory)
            ⊎ (first_refusal (sender_conditions self.now client.now topic.now) ≡ Some refusal)) }
    {
        let publisher = self.check_client(client)?;
        let id = publisher.id.clone()?;
        let name = parse_name(self.alloc, topic)?;
        if !may_write(&self.access, client, publisher.user, &name) {
            return Err(Refusal::NotAuthorized);
        }
        Ok((id, name))
    }
}
