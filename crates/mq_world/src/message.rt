//! A message on its way.

use mq_topic::TopicName;
use std::rc::RcStr;

/// A message that is published.
#[derive(Clone, Copy)]
pub struct Message<'a> {
    pub publisher: &'a RcStr,
    pub topic: &'a TopicName,
    pub payload: &'a str,
    pub qos: u8,
    pub retain: bool,
    pub expiry: Option<u32>,
    /// When what is kept of it ends, if it ends.
    pub deadline: Option<u64>,
}
