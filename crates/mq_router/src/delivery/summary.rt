//! What the options of a client's subscriptions come to for its copy.
ghost use Rattle.std.specs.Prelude.{◌≡◌, [], ◌∷◌, ◌++◌, IfOk, OnOk};
ghost use Rattle.std.specs.Option.{option_to_list};
ghost use Rattle.mq_world.specs.Views.{options_of};

use mq_world::SubscriptionOptions;
use std::alloc::{AllocError, Global};
use std::marker::Model;

/// The greatest QoS, whether some ask for Retain As Published, and the identifiers.
#[derive(Drop)]
pub(crate) struct Summary {
    qos: u8,
    rap: bool,
    ids: Vec<u32>,
}

impl Model for Summary {
    ghost use Rattle.mq_router.specs.delivery.Summaries as specs;

    ghost Value = { specs.Summary };

    ghost view = { specs.summary_in };
}

impl Summary {
    ghost use Rattle.mq_world.specs.Lists.{ascending};
    ghost use Rattle.mq_router.specs.delivery.Summaries.{summary_of, together};

    /// That of no subscription.
    pub(crate) fn new(alloc: Global) -> Summary
        ensures { result ≡ summary_of [] }
    {
        Summary {
            qos: 0,
            rap: false,
            ids: Vec::new(alloc),
        }
    }

    /// That of one subscription.
    pub(crate) fn of(alloc: Global, options: SubscriptionOptions) -> Result<Summary, AllocError>
        ensures { IfOk result (λ summary. summary ≡ summary_of (options_of options ∷ [])) }
    {
        let mut ids = Vec::new(alloc);
        push_id(&mut ids, options.id)?;
        Ok(Summary {
            qos: options.qos,
            rap: options.rap,
            ids,
        })
    }

    /// One more subscription.
    pub(crate) fn add(&mut self, options: SubscriptionOptions) -> Result<(), AllocError>
        ensures { OnOk result (self.new
            ≡ together self.old (summary_of (options_of options ∷ []))) }
    {
        push_id(&mut self.ids, options.id)?;
        self.qos = self.qos.max(options.qos);
        self.rap = self.rap || options.rap;
        Ok(())
    }

    pub(crate) fn qos(&self) -> u8
        ensures { result ≡ self.now.qos }
    {
        self.qos
    }

    pub(crate) fn retains_as_published(&self) -> bool
        ensures { result ≡ self.now.retain_as_published }
    {
        self.rap
    }

    /// The identifiers, ascending, equal ones repeated.
    pub(crate) fn into_ids(self) -> Vec<u32>
        ensures { result.items ≡ ascending self.identifiers }
    {
        let mut ids = self.ids;
        ids.sort_unstable();
        ids
    }
}

fn push_id(ids: &mut Vec<u32>, id: Option<u32>) -> Result<(), AllocError>
    ensures { OnOk result (ids.new.items ≡ ids.old.items ++ option_to_list id) }
{
    if let Some(id) = id {
        ids.push(id)?;
    }
    Ok(())
}
