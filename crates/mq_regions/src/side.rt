/// Which list rows are of: the old one, which asks about the topics, or the new one, which asks about the names that
/// they get.
#[derive(Clone, Copy)]
pub(crate) enum Side {
    Old,
    New,
}
