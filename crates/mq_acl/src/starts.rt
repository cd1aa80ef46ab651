//! How a filter begins, and a name.
ghost use Rattle.std.specs.Prelude.{◌≡◌, true};
ghost use Rattle.mq_acl.specs.Starts.{StartsApart, is_special};

// A byte that a wildcard or a mark begins with.
fn is_special(byte: u8) -> bool
    ensures { result ≡ is_special byte }
{
    byte == b'#' || byte == b'+' || byte == b'%'
}

// Whether the name differs from what the filter has before such a byte: most rows of a long list
// are passed over so. A name has no wildcards, so that bytes that both have are none.
pub(crate) fn starts_apart(filter: &[u8], name: &[u8]) -> bool
    ensures { result ≡ true → StartsApart filter.now name.now }
{
    let most = filter.len().min(name.len());
    let mut at = 0;
    'same: while at < most && filter[at] == name[at] && filter[at] != b'%' {
        at += 1;
    }
    if at == most {
        return false;
    }
    filter[at] != name[at] && !is_special(filter[at])
}
