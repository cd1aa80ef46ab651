//! What is wrong with a line, in words.
use mq_acl::{AclKind, Rules};
use std::alloc::{AllocError, Global};

// Whether the rules part words at this character.
fn is_blank(rules: Rules, c: char) -> bool {
    c == ' ' || (c == '\t' && rules == Rules::Own)
}

// The first word of a text that begins with none of its blanks, and what follows it and its blanks.
fn split_word(rules: Rules, text: &str) -> (&str, &str) {
    match text.split_once(|c: char| is_blank(rules, c)) {
        Some((word, rest)) => (word, rest.trim_start_matches(|c: char| is_blank(rules, c))),
        None => (text, ""),
    }
}

// The topic of a line: what follows its keyword, and its access where one stands there.
fn topic_in(rules: Rules, line: &str) -> &str {
    let (_, rest) = split_word(rules, line);
    match split_word(rules, rest) {
        (topic, "") => topic,
        (_, topic) => topic,
    }
}

// So many characters of an unknown word are shown: a file may hold what is secret.
const SHOWN: usize = 20;

// The beginning of a word that is longer, else all of it.
fn beginning(word: &str) -> &str {
    match word.char_indices().nth(SHOWN) {
        Some((end, _)) => word.get(..end).unwrap_or(""),
        None => word,
    }
}

fn unknown(alloc: Global, what: &str, word: &str, expected: &str) -> Result<String, AllocError> {
    let shown = beginning(word);
    let more = if shown.len() < word.len() { ".." } else { "" };
    format!(in alloc; "unknown {what} {shown:?}{more}: expected {expected}")
}

/// What is wrong with this line by these rules.
pub fn fault_words(
    alloc: Global,
    rules: Rules,
    line: &str,
    kind: AclKind,
) -> Result<String, AllocError> {
    let line = line.trim_end();
    let line = line.trim_start_matches(|c: char| is_blank(rules, c));
    let (keyword, rest) = split_word(rules, line);
    match kind {
        AclKind::Keyword => unknown(alloc, "keyword", keyword, "topic, pattern or user"),
        AclKind::Access => {
            let (access, _) = split_word(rules, rest);
            unknown(alloc, "access", access, "read, write, readwrite or deny")
        }
        AclKind::Topic if rest.is_empty() => String::from_str(alloc, "the topic is missing"),
        AclKind::Topic => {
            let topic = topic_in(rules, line);
            format!(in alloc; "{topic:?} is not a topic filter")
        }
        AclKind::User => String::from_str(alloc, "the user name is missing"),
        AclKind::Pattern => {
            let topic = topic_in(rules, line);
            format!(in alloc; "%c and %u must be whole levels: {topic:?}")
        }
        AclKind::Memory => String::from_str(alloc, "out of memory"),
    }
}
