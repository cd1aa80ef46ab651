//! Tries the calls of the topics, the access lists, the command line and the tree.
use crate::tests::refused::calls::Call;
use crate::tests::refused::put::{Put, VALUE, tree_of};
use crate::tests::refused::texts::{
    COMMAND_LINES, FILTERS, KEYS, LISTS, LOOKED_UP, MOST_BYTES, MOST_SLASHES, NAMES, NEIGHBOURS,
    SHARE, SUBSCRIPTIONS,
};
use crate::tests::refused::trial::{Subject, attempt};
use mq_topic::{LevelText, SubFilter, TopicFilter, TopicName};
use mq_tree::LevelTree;
use std::process::Abort;

/// What a text is read as.
#[derive(Clone, Copy)]
enum Kind {
    Name,
    Filter,
    Subscription,
    List,
    CommandLine,
}

pub(crate) fn try_calls(rt: &(impl Abort + AllocGlobal + Print)) {
    try_texts(rt, Kind::Name, &NAMES);
    try_texts(rt, Kind::Name, &LOOKED_UP);
    try_limits(rt, Kind::Name, "");
    try_texts(rt, Kind::Filter, &FILTERS);
    try_texts(rt, Kind::Filter, &KEYS);
    try_limits(rt, Kind::Filter, "");
    try_texts(rt, Kind::Subscription, &SUBSCRIPTIONS);
    try_limits(rt, Kind::Subscription, SHARE);
    try_texts(rt, Kind::List, &LISTS);
    let file = Call::ReadListFile(b"\xff");
    attempt(
        rt,
        "read_acl",
        Subject::Text("a byte that is no UTF-8"),
        &file,
    );
    try_texts(rt, Kind::CommandLine, &COMMAND_LINES);
    try_tree(rt);
}

// The words of a command line.
fn words_of(rt: &(impl Abort + AllocGlobal + Print), text: &str) -> Vec<String> {
    let mut words = Vec::new(rt.alloc());
    for word in text.split_whitespace() {
        let word = String::from_str(rt.alloc(), word).expect(rt, "memory");
        words.push(word).expect(rt, "memory");
    }
    words
}

fn try_name(rt: &(impl Abort + AllocGlobal + Print), text: &str) {
    let subject = Subject::Text(text);
    attempt(rt, "TopicName::parse", subject, &Call::ParseName(text));
    if let Ok(name) = TopicName::parse(rt.alloc(), text) {
        attempt(rt, "TopicName::clone", subject, &Call::CloneName(&name));
    }
}

fn try_filter(rt: &(impl Abort + AllocGlobal + Print), text: &str) {
    let subject = Subject::Text(text);
    attempt(rt, "TopicFilter::parse", subject, &Call::ParseFilter(text));
    if let Ok(filter) = TopicFilter::parse(rt.alloc(), text) {
        attempt(
            rt,
            "TopicFilter::clone",
            subject,
            &Call::CloneFilter(&filter),
        );
    }
}

fn try_subscription(rt: &(impl Abort + AllocGlobal + Print), text: &str) {
    let subject = Subject::Text(text);
    attempt(
        rt,
        "SubFilter::parse",
        subject,
        &Call::ParseSubscription(text),
    );
    if let Ok(wanted) = SubFilter::parse(rt.alloc(), text) {
        attempt(
            rt,
            "SubFilter::clone",
            subject,
            &Call::CloneSubscription(&wanted),
        );
    }
}

fn try_list(rt: &(impl Abort + AllocGlobal + Print), text: &str) {
    let subject = Subject::Text(text);
    attempt(rt, "Acl::read", subject, &Call::ReadList(text));
    attempt(
        rt,
        "read_acl",
        subject,
        &Call::ReadListFile(text.as_bytes()),
    );
}

fn try_command_line(rt: &(impl Abort + AllocGlobal + Print), text: &str) {
    let words = words_of(rt, text);
    attempt(
        rt,
        "arguments",
        Subject::Text(text),
        &Call::ReadWords(words.as_slice()),
    );
}

// Tries the calls that read this text, and the clones of what they give.
fn try_text(rt: &(impl Abort + AllocGlobal + Print), kind: Kind, text: &str) {
    match kind {
        Kind::Name => try_name(rt, text),
        Kind::Filter => try_filter(rt, text),
        Kind::Subscription => try_subscription(rt, text),
        Kind::List => try_list(rt, text),
        Kind::CommandLine => try_command_line(rt, text),
    }
}

fn try_texts(rt: &(impl Abort + AllocGlobal + Print), kind: Kind, texts: &[&str]) {
    for text in texts {
        try_text(rt, kind, text);
    }
}

// Tries texts with this front that are one byte or one level too long, and others that are as long as they may be.
fn try_limits(rt: &(impl Abort + AllocGlobal + Print), kind: Kind, front: &str) {
    let most_bytes = MOST_BYTES.saturating_sub(front.len());
    for (piece, length) in [
        ("a", most_bytes),
        ("a", most_bytes + 1),
        ("/", MOST_SLASHES),
        ("/", MOST_SLASHES + 1),
    ] {
        let back = piece.repeat(rt.alloc(), length).expect(rt, "memory");
        let text = format!(in rt.alloc(); "{front}{back}").expect(rt, "memory");
        try_text(rt, kind, text.as_str());
    }
}

// Parses these texts, and adds what that gives.
fn add_keys(rt: &(impl Abort + AllocGlobal + Print), texts: &[&str], keys: &mut Vec<TopicFilter>) {
    for text in texts {
        let key = TopicFilter::parse(rt.alloc(), text).expect(rt, "a filter");
        keys.push(key).expect(rt, "memory");
    }
}

fn try_tree(rt: &(impl Abort + AllocGlobal + Print)) {
    let mut keys = Vec::new(rt.alloc());
    add_keys(rt, &KEYS, &mut keys);
    add_keys(rt, &NEIGHBOURS, &mut keys);
    try_puts(rt, keys.as_slice());
    let tree = tree_of(rt, keys.as_slice());
    try_names(rt, &tree);
    try_filters(rt, &tree);
}

fn try_puts(rt: &(impl Abort + AllocGlobal + Print), keys: &[TopicFilter]) {
    let all = TopicFilter::parse(rt.alloc(), "#").expect(rt, "a filter");
    for place in 0..keys.len() {
        try_put(rt, "put", &keys[..place], &keys[place], &all);
        try_put(rt, "put again", keys, &keys[place], &all);
    }
}

fn try_put(
    rt: &(impl Abort + AllocGlobal + Print),
    call: &str,
    keys: &[TopicFilter],
    key: &TopicFilter,
    all: &TopicFilter,
) {
    let before = tree_of(rt, keys);
    let mut after = tree_of(rt, keys);
    let older = after.put(key, VALUE).expect(rt, "memory");
    let put = Put {
        keys,
        key,
        all,
        before: &before,
        after: &after,
        older,
    };
    attempt(rt, call, Subject::Text(key.text()), &put);
}

fn try_names(rt: &(impl Abort + AllocGlobal + Print), tree: &LevelTree<u32>) {
    for text in &LOOKED_UP {
        let name = TopicName::parse(rt.alloc(), text).expect(rt, "a name");
        attempt(
            rt,
            "for_name",
            Subject::Text(text),
            &Call::ForName(tree, &name),
        );
    }
}

fn try_filters(rt: &(impl Abort + AllocGlobal + Print), tree: &LevelTree<u32>) {
    for text in &KEYS {
        let filter = TopicFilter::parse(rt.alloc(), text).expect(rt, "a filter");
        attempt(
            rt,
            "for_filter",
            Subject::Text(text),
            &Call::ForFilter(tree, &filter),
        );
    }
}
