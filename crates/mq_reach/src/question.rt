//! Whether one subscription can receive nothing.
ghost use Rattle.std.specs.Prelude.{◌≡◌, ◌&&◌, ℕ, List, [], not, true, false, Option};
ghost use Rattle.std.specs.Prelude.{IfOk, IfErr, IsTrue, string_bytes};
ghost use Rattle.mq_topic.specs.Texts.{filter_part, is_shared, is_subscription};
ghost use Rattle.mq_acl.specs.AccessLists.{AccessList};
ghost use Rattle.mq_acl.specs.Views.{row_views};
ghost use Rattle.std.specs.Option.{option_copied};
ghost use Rattle.mq_topic.specs.Texts.{is_name};
ghost use Rattle.mq_reach.specs.Faults.{IsAskFault, IsSearchFault};
ghost use Rattle.mq_reach.specs.Reach.{IsReachFault, Reads, ReadsNone, list_by};
ghost use Rattle.mq_reach.specs.Tracked.{subscription_view};

use crate::fault::ReachFault;
use crate::reach::Reach;
use crate::subscription::Subscription;
use mq_acl::{Row, Rules};
use mq_topic::{SubFilter, TopicFilter};
use mq_witness::ListFault;
use std::alloc::{AllocError, Global};

/// Why it isn't known whether a subscription can receive nothing. `Memory` may stand in place of any answer.
#[derive(Clone, Copy, PartialEq, Eq)]
pub enum SearchFault {
    /// The row of the list with this line has a level, or a user name, of more than 300 bytes.
    Row(u64),
    /// The subscription of this line of the script has a client id, a user name, or a level of its
    /// filter, of more than 300 bytes; or, by mosquitto's rules, a `pattern` row of the list has
    /// such a level or is not a topic filter with the client's texts in the place of its marks.
    Subscription(u64),
    /// There was no memory.
    Memory,
}

impl From<AllocError> for SearchFault {
    ghost use Rattle.std.specs.Prelude.{◌≡◌};
    ghost use Rattle.mq_reach.specs.declared.question.SearchFault.TheVariants.{Memory};

    ghost from_gives = { λ _ fault. fault ≡ Memory };

    fn from(_: AllocError) -> Self {
        SearchFault::Memory
    }
}

/// Whether a broker takes this subscribe of a client that is connected.
pub(crate) fn is_taken(filter: &str, no_local: bool) -> bool
    ensures { result ≡ (is_subscription filter.now && not (is_shared filter.now && no_local)) }
{
    SubFilter::is_valid(filter) && !(filter.starts_with("$share/") && no_local)
}

fn filter_in(alloc: Global, text: &str) -> Result<TopicFilter, SearchFault>
    ensures ok { IfOk result (λ filter. filter ≡ filter_part text.now) }
    ensures err { IfErr result (λ fault. fault ≡ SearchFault.Memory) }
{
    match SubFilter::parse(alloc, text) {
        Ok(parts) => Ok(parts.filter),
        // The text of a subscription has no other fault.
        Err(_) => Err(SearchFault::Memory),
    }
}

fn fault_of(subscription: &Subscription, fault: ReachFault) -> SearchFault
    ensures { (list : AccessList) (user : Option (List ℕ))
        → let s = subscription_view subscription.now in
        IsReachFault list s.client user (filter_part s.filter) fault
        → IsAskFault list s user result }
{
    match fault {
        ReachFault::Memory => SearchFault::Memory,
        ReachFault::Client | ReachFault::User | ReachFault::Filter | ReachFault::Pattern => {
            SearchFault::Subscription(subscription.line)
        }
    }
}

/// The list with these rows, which decide by these rules, and which is asked about subscriptions.
pub(crate) fn list_of(alloc: Global, rules: Rules, rows: &[Row]) -> Result<Reach<'_>, SearchFault>
    ensures ok { IfOk result (λ list. list ≡ list_by rules (row_views rows.entry.now)) }
    ensures err { IfErr result (IsSearchFault rules rows.entry.now []) }
{
    match Reach::new(alloc, rules, rows) {
        Ok(list) => Ok(list),
        Err(ListFault::Memory) => Err(SearchFault::Memory),
        Err(ListFault::Line(_, row)) => Err(SearchFault::Row(row)),
        // Of rows that are asked about by our own rules there is no such fault.
        Err(ListFault::Mark(_, _)) => Err(SearchFault::Memory),
    }
}

/// Whether the client of a subscription, under this user name or none, may read no topic that its filter matches.
pub(crate) fn is_unreached(
    alloc: Global,
    list: &Reach,
    subscription: &Subscription,
    user: Option<&str>,
) -> Result<bool, SearchFault>
    ensures unreached { IfOk result (λ unreached. unreached ≡ true → ReadsNone list.now
        (string_bytes subscription.now.client) (option_copied user.entry)
        (filter_part (string_bytes subscription.now.filter))) }
    ensures reached { IfOk result (λ unreached. unreached ≡ false → (topic : List ℕ)
        × IsTrue (is_name topic) × Reads list.now (string_bytes subscription.now.client)
        (option_copied user.entry) (filter_part (string_bytes subscription.now.filter)) topic) }
    ensures err { IfErr result (IsAskFault list.now (subscription_view subscription.now)
        (option_copied user.entry)) }
{
    let filter = filter_in(alloc, subscription.filter.as_str())?;
    let client = subscription.client.as_str();
    match list.is_unreached(alloc, client, user, &filter) {
        Ok(unreached) => Ok(unreached),
        Err(fault) => Err(fault_of(subscription, fault)),
    }
}
