//! What is longer than 300 bytes.
ghost use Rattle.std.specs.Prelude.{◌≡◌};
ghost use Rattle.std.specs.List.{flat_map};
ghost use Rattle.mq_topic.specs.Levels.{levels};
ghost use Rattle.mq_rename.specs.Lists.{has_long, is_long, texts};
ghost use Rattle.mq_regions.specs.Limits.{has_long_filter, is_long_question};
ghost use Rattle.mq_regions.specs.Regions.{kind_levels, region_levels};

use crate::region::{Region, RegionKind};
use mq_acl::Row;
use mq_topic::{LevelText, TopicFilter};

fn is_long(text: &str) -> bool
    ensures { result ≡ is_long text.now }
{
    text.len() > 300
}

fn has_long(text: &str) -> bool
    ensures { result ≡ has_long (levels text.now) }
{
    text.split('/').any(|level| is_long(level))
}

fn is_long_kind(kind: &RegionKind) -> bool
    ensures { result ≡ has_long (kind_levels kind.now) }
{
    match kind {
        RegionKind::Same => false,
        RegionKind::Kept(filter) => has_long(filter.text()),
        RegionKind::Renamed(rule) => has_long(rule.left().text()) || has_long(rule.right().text()),
    }
}

fn is_some_long(filters: &[&TopicFilter]) -> bool
    ensures { result ≡ has_long (flat_map levels (texts filters.now)) }
{
    filters.iter().any(|filter| has_long(filter.text()))
}

fn has_long_filter(rows: &[Row]) -> bool
    ensures { result ≡ has_long_filter rows.now }
{
    rows.iter().any(|row| has_long(row.filter.text()))
}

fn is_long_region(region: &Region) -> bool
    ensures { result ≡ has_long (region_levels region.now) }
{
    is_some_long(&region.taken) || is_long_kind(&region.kind)
}

/// Whether some level is longer, of the region's filters or of the rows', or the client id is.
pub(crate) fn is_long_question(region: &Region, client: &str, rows: &[Row]) -> bool
    ensures { result ≡ is_long_question region.now client.now rows.now }
{
    if is_long(client) {
        return true;
    }
    if is_long_region(region) {
        return true;
    }
    has_long_filter(rows)
}
