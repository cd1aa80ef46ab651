use mq_topic::TopicName;

/// A client and a topic.
#[derive(Drop)]
pub struct Witness {
    /// The client id.
    pub client: String,
    /// The user name, or none.
    pub user: Option<String>,
    /// The topic.
    pub name: TopicName,
}
