//! Access lists: which clients may read and write which topics (mosquitto.conf(5), `acl_file`).
#![tactic(auto)]

mod access;
mod acl;
mod by_owner;
mod check;
mod clients;
mod entry;
mod fault;
mod filled;
mod mosquitto;
mod mosquitto_lines;
mod owned;
mod read;
mod refused;
mod rights;
mod row;
mod rows_by_access;
mod rules;
mod starts;
mod words;

pub use access::{Access, Direction, grants, is_deny};
pub use acl::Acl;
pub use by_owner::ByOwner;
pub use check::{applies, concerns};
pub use entry::has_whole_marks;
pub use fault::{AclFault, AclKind};
pub use filled::Names;
pub use mosquitto::{concerns_by, user_by};
pub use owned::Owned;
pub use read::{read_rows, read_rows_by};
pub use refused::{begins_own, begins_shared, refuses, refuses_filter, state_filter};
pub use rights::{may_read, may_write};
pub use row::{Owner, Row};
pub use rules::Rules;
pub use words::{has_mark, is_blank, split_word, trimmed};
