//! What mosquitto does with a list that it doesn't take.
use std::alloc::{AllocError, Global};

// What comes of it, behind the name of the file.
const DROPPED: &str =
    "mosquitto 2.0.11 drops a list with a faulty line, and then allows everything \
    to everybody. It doesn't start with it either.";

/// That mosquitto drops the list of this file when it reloads it, and what is allowed then.
pub fn reload_words(alloc: Global, file: &str) -> Result<String, AllocError> {
    format!(in alloc; "DON'T RELOAD {file}: {DROPPED}")
}
