//! The publishes of a script, by their topics.
use crate::pattern::TopicPattern;
use crate::publishes::Publishes;
use mq_jsonl::{LineFault, read_line};
use mq_topic::{TopicFault, TopicName};
use mq_world::Command;
use std::alloc::{AllocError, Global};
use std::collections::BTreeMap;

/// So many bytes of the first line are kept.
const FRONT: usize = 64;

/// The topics that the publishes of a script are to, with how many are to each. Those to a text
/// that is not a topic name are left out: a broker refuses them.
pub struct Traffic {
    counts: BTreeMap<String, u64>,
    lines: u64,
    commands: u64,
    front: Vec<u8>,
}

// Opaque to callers' proofs: one step, and not one for each field (docs/explanation/gate.md).
impl Drop for Traffic {
    fn drop(self) {
        let Traffic {
            counts: _,
            lines: _,
            commands: _,
            front: _,
        } = self;
    }
}

fn is_topic_name(alloc: Global, topic: &str) -> Result<bool, AllocError> {
    match TopicName::parse(alloc, topic) {
        Ok(_) => Ok(true),
        Err(TopicFault::Memory) => Err(AllocError),
        Err(_) => Ok(false),
    }
}

fn add_one(counts: &mut BTreeMap<String, u64>, topic: String) -> Result<(), AllocError> {
    let count = counts.entry(topic)?.or_default();
    *count = count.saturating_add(1);
    Ok(())
}

impl Traffic {
    pub(crate) fn new(alloc: Global) -> Traffic {
        Traffic {
            counts: BTreeMap::new(alloc),
            lines: 0,
            commands: 0,
            front: Vec::new(alloc),
        }
    }

    fn take(&mut self, alloc: Global, command: Command) -> Result<(), AllocError> {
        self.commands = self.commands.saturating_add(1);
        let Command::Publish { topic, .. } = command else {
            return Ok(());
        };
        if !is_topic_name(alloc, topic.as_str())? {
            return Ok(());
        }
        add_one(&mut self.counts, topic)
    }

    /// Takes a line more, without its line feed.
    pub(crate) fn take_line(&mut self, alloc: Global, line: &[u8]) -> Result<(), AllocError> {
        if self.lines == 0 {
            self.front
                .extend_from_slice(&line[..line.len().min(FRONT)])?;
        }
        self.lines = self.lines.saturating_add(1);
        match read_line(alloc, line) {
            Ok(Some(command)) => self.take(alloc, command),
            Err(LineFault::Memory) => Err(AllocError),
            _ => Ok(()),
        }
    }

    /// How many lines the script has, blank ones too.
    pub fn lines(&self) -> u64 {
        self.lines
    }

    /// How many of them are commands.
    pub fn commands(&self) -> u64 {
        self.commands
    }

    /// What the first line begins with.
    pub fn front(&self) -> &[u8] {
        self.front.as_slice()
    }

    /// The publishes to topics that each of the filters may match.
    pub fn matched(&self, filters: &[TopicPattern<'_>]) -> Publishes {
        let mut found = Publishes::NONE;
        for (topic, count) in &self.counts {
            if filters.iter().all(|filter| filter.may_match(topic)) {
                found = found.with_topic(*count);
            }
        }
        found
    }
}
