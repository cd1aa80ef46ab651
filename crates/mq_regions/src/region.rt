use mq_rename::Rename;
use mq_topic::TopicFilter;

/// Which topics a region has, but for those that are taken, and what they become.
#[derive(Clone, Copy)]
pub enum RegionKind<'a> {
    /// Those that the rule renames; they get new names.
    Renamed(&'a Rename),
    /// Those that the filter matches; they keep their names.
    Kept(&'a TopicFilter),
    /// All; they keep their names.
    Same,
}

/// Topics that one rule renames, or that keep their names.
#[derive(Drop)]
pub struct Region<'a> {
    /// Filters whose topics are not of the region, since an earlier rule takes them.
    pub taken: Vec<&'a TopicFilter>,
    /// Which topics it has else.
    pub kind: RegionKind<'a>,
}
