//! The new names of the topics that are shown.
use mq_differences::Difference;
use mq_through::Renamed;
use mq_topic::{LevelText, TopicName};
use std::alloc::{AllocError, Global};
use std::collections::BTreeMap;

/// The new name of a topic, and the line of the rule that decides about it, if one does.
pub(crate) struct NewName {
    pub(crate) topic: TopicName,
    pub(crate) rule: Option<u64>,
}

// Opaque to callers' proofs: one step, and not one for each field (docs/explanation/gate.md).
impl Drop for NewName {
    fn drop(self) {
        let NewName { topic: _, rule: _ } = self;
    }
}

/// New names, by the topics that they are of.
pub(crate) struct NewNames {
    by_topic: BTreeMap<String, NewName>,
}

// Opaque to callers' proofs: one step, and not one for each field (docs/explanation/gate.md).
impl Drop for NewNames {
    fn drop(self) {
        let NewNames { by_topic: _ } = self;
    }
}

impl NewNames {
    fn add(
        &mut self,
        alloc: Global,
        topic: &TopicName,
        new: TopicName,
        rule: Option<u64>,
    ) -> Result<(), AllocError> {
        let key = String::from_str(alloc, topic.text())?;
        self.by_topic.insert(key, NewName { topic: new, rule })?;
        Ok(())
    }

    /// That of this topic, if it is among them.
    pub(crate) fn of(&self, topic: &TopicName) -> Option<&NewName> {
        self.by_topic.get(topic.text())
    }
}

/// What changes, and the new names of the topics that are shown.
pub(crate) fn parted(
    alloc: Global,
    renamed: Vec<Renamed>,
) -> Result<(Vec<Difference>, NewNames), AllocError> {
    let mut differences = Vec::new(alloc);
    let mut names = NewNames {
        by_topic: BTreeMap::new(alloc),
    };
    for one in renamed {
        let (difference, new_topic, rule) = one.into_parts();
        names.add(alloc, &difference.topic, new_topic, rule)?;
        differences.push(difference)?;
    }
    Ok((differences, names))
}
