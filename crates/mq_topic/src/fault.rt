/// Why a text is not a topic name, no topic filter or no subscription text: the first of these that holds
/// (MQTT 5.0, sections 4.7.1 to 4.7.3 and 4.8.2; the limit of 200 levels is our own).
#[derive(Clone, Copy, Debug, PartialEq, Eq)]
pub enum TopicFault {
    /// The text is empty.
    Empty,
    /// The text has more than 65,535 bytes of UTF-8.
    TooLong,
    /// The text holds U+0000.
    Nul,
    /// A wildcard stands in a name, or is not a whole level of a filter, or `#` is not the last level.
    Wildcard,
    /// There are more than 200 levels.
    Levels,
    /// In a subscription text that begins with `$share/`: the share name is empty or holds a wildcard, or no
    /// filter follows it.
    Share,
    /// There was no memory. A parse answers it for a valid text alone.
    Memory,
}
