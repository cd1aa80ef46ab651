//! The rules of a plan.
ghost use Rattle.std.specs.Prelude.{◌≡◌, IfOk};
ghost use Rattle.std.specs.Option.{option_copied};
ghost use Rattle.mq_topic.specs.Levels.{levels};
ghost use Rattle.mq_topic.specs.Matching.{matches};
ghost use Rattle.mq_plan.specs.Names.{is_taken, left_of, name_by, rename_of, takes};

use mq_rename::Rename;
use mq_topic::{TopicFilter, TopicName, matches};
use std::alloc::{AllocError, Global};

/// What becomes of topics.
#[derive(Drop)]
pub enum Act {
    /// Those that the left side matches are renamed.
    Renamed(Rename),
    /// Those that the filter matches keep their names.
    Kept(TopicFilter),
    /// Those that the filter matches have no new name.
    Gone(TopicFilter),
}

/// A rule of a plan: what becomes of which topics.
pub struct PlanRule {
    /// The number of its line, from 1.
    pub line: u64,
    /// What it says.
    pub act: Act,
}

// Opaque to callers' proofs: one step, and not one for each field (docs/explanation/gate.md).
impl Drop for PlanRule {
    fn drop(self) {
        let PlanRule { line: _, act: _ } = self;
    }
}

impl PlanRule {
    /// Which topics it is about.
    pub fn left(&self) -> &TopicFilter
        ensures { result.now ≡ left_of self.entry.now }
    {
        match &self.act {
            Act::Renamed(rename) => rename.left(),
            Act::Kept(filter) => filter,
            Act::Gone(filter) => filter,
        }
    }

    /// By what these are renamed, if they are.
    pub fn rename(&self) -> Option<&Rename>
        ensures { option_copied result ≡ rename_of self.entry.now }
    {
        match &self.act {
            Act::Renamed(rename) => Some(rename),
            _ => None,
        }
    }

    /// Whether it is about this topic.
    pub(crate) fn takes(&self, name: &TopicName) -> bool
        ensures { result ≡ takes name.now self.now }
    {
        matches(self.left(), name)
    }

    /// Whether topics may get this name by it.
    pub(crate) fn is_taken(&self, name: &TopicName) -> bool
        ensures { result ≡ is_taken name.now self.now }
    {
        match &self.act {
            Act::Renamed(rename) => matches(rename.right(), name),
            _ => false,
        }
    }

    /// The new name of a topic that it is about.
    pub(crate) fn new_name(
        &self,
        alloc: Global,
        name: &TopicName,
    ) -> Result<Option<TopicName>, AllocError>
        ensures { IfOk result (λ found. found ≡ name_by self.now name.now) }
    {
        match &self.act {
            Act::Renamed(rename) => rename.new_name(alloc, name),
            Act::Kept(_) => Ok(Some(name.clone()?)),
            Act::Gone(_) => Ok(None),
        }
    }
}
