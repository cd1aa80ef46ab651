//! What all questions to access lists share: what is asked about, the rows of a list's text, why
//! nothing is answered, how an answer ends, and words.
#![tactic(auto)]

mod asked_client;
mod client;
mod failure;
mod faults;
mod foreign;
mod notes;
mod options;
mod outcome;
mod printing;
mod refused;
mod reload;
mod rows;
mod selection;
mod words;

pub use asked_client::{AskedClient, add_client, name_note};
pub use client::Client;
pub use failure::{FAILED, Failure, UNREADABLE};
pub use faults::fault_words;
pub use foreign::foreign_words;
pub use notes::{LIMITED_TO, add_limit};
pub use options::Options;
pub use outcome::Outcome;
pub use printing::{print, print_outcome};
pub use refused::{add_refused, add_refused_json, refused_words};
pub use reload::reload_words;
pub use rows::{check_taken, list_failure, rows_in};
pub use selection::Selection;
pub use words::{access_named, access_word, rules_owner};
