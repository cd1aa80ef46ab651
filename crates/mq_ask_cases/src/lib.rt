//! What a search found, as it is shown: the clients, the topic, the line that decides, and how many
//! publishes of a script it is about; and tables of what changes.
#![tactic(auto)]

mod change_rows;
mod clients;
mod deciding;
mod placeholders;
mod published;
mod ways;

pub use change_rows::{ChangeRow, change_table};
pub use clients::{add_who, group_text, who_text};
pub use deciding::{Side, decision, has_wildcard};
pub use placeholders::{add_client_id, add_topic, shown_topic};
pub use published::{ScriptTraffic, add_counts, add_pattern, marks_of, publishes_text};
pub use ways::{is_way, rows_word, way_word};
