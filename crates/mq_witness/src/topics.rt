use mq_acl::Direction;

/// Which topics a question is about.
#[derive(Clone, Copy, Drop)]
pub enum Topics {
    /// All.
    All,
    /// Those that clients may read, or write, by a list: not what the broker refuses by itself
    /// (`mq_acl::refuses`).
    Open(Direction),
}
