//! The texts that are tried: those of the worked rows on parses, access lists and command lines, and keys of a tree.

pub(crate) const NAMES: [&str; 4] = ["", "a+", "a\0", "/"];

pub(crate) const FILTERS: [&str; 7] = [
    "#",
    "+",
    "+/tennis/#",
    "sport/+/player1",
    "sport+",
    "sport/tennis#",
    "a/#/b",
];

pub(crate) const SUBSCRIPTIONS: [&str; 10] = [
    "$share//t",
    "$share/g",
    "$share/g/",
    "$share/+/t",
    "$share/g/a#",
    "$share",
    "$sharex/g",
    "$share/g/+",
    "$share/g/a/b/c",
    "a/b",
];

/// What stands before the filter in texts at the limits.
pub(crate) const SHARE: &str = "$share/g/";

/// How many bytes a text may have, and how many slashes.
pub(crate) const MOST_BYTES: usize = 65_535;

pub(crate) const MOST_SLASHES: usize = 199;

pub(crate) const KEYS: [&str; 8] = ["a/#", "a", "+", "#", "/x", "a/b", "a/b/c/d/e", "$x"];

/// More keys, beside one another: so many that a map of the tree splits.
pub(crate) const NEIGHBOURS: [&str; 16] = [
    "s/0", "s/1", "s/2", "s/3", "s/4", "s/5", "s/6", "s/7", "s/8", "s/9", "s/10", "s/11", "s/12",
    "s/13", "s/14", "s/15",
];

pub(crate) const LOOKED_UP: [&str; 4] = ["a", "a/b", "$x", "/x"];

pub(crate) const LISTS: [&str; 15] = [
    "topic read a b",
    "# c\n\ntopic a b",
    "topic read",
    "topic read\r\npattern read x%u",
    "",
    "allow a",
    "topic a b",
    "topic",
    "topic read a+",
    "user",
    "pattern read x%u",
    "pattern read +%u",
    "topic read x%u",
    "topic a\n",
    "topic read a/#\npattern deny a/%u\npattern read %u/#\nuser b\ntopic readwrite a/b c/#\n",
];

pub(crate) const COMMAND_LINES: [&str; 8] = [
    "mqroute",
    "mqroute --acl-file f s",
    "mqroute -",
    "mqroute --rules mosquitto",
    "mqroute --rules x",
    "mqroute --bad",
    "mqroute a b",
    "mqroute --help",
];
