//! Each growth of memory refused in turn: the nth growth of a call fails, for each n, until the call meets no refusal.
//! That needs the preloaded allocator of tests/refused.c, as tests/refused.sh gives it. Without it the same calls are
//! made with ample memory, and none may say that memory ran out.

mod calls;
mod command;
mod growth;
mod put;
mod reply;
mod row;
mod run;
mod texts;
mod trial;
mod try_calls;
mod try_row;

use crate::tests::refused::row::Row;
use crate::tests::refused::try_calls::try_calls;
use crate::tests::refused::try_row::try_row;
use crate::tests::scripts::FIRST_LOOK;
use mq_acl::Rules;
use mq_cli::{Options, arguments};
use mq_router::Limits;
use std::process::Abort;
use std::rt::{Env, Files};
use std::{env, fs};

#[test]
fn growths_of_calls(rt: HostRuntime) {
    try_calls(&rt);
}

// The words after the test's name are the file of an output, and those with which mqroute writes that output. Without
// any a script of its own is tried.
#[test]
fn growths_of_a_row(rt: HostRuntime) {
    let words = words_given(&rt);
    let Some(output) = words.first() else {
        let row = Row {
            acl: None,
            rules: Rules::Own,
            limits: Limits::new(),
            script: FIRST_LOOK.script,
            output: FIRST_LOOK.output,
        };
        return try_row(&rt, row);
    };
    // The first is skipped like the program's name.
    let options = arguments(rt.alloc(), words.as_slice()).expect(&rt, "words of mqroute");
    try_files(&rt, output.as_str(), &options);
}

fn words_given(rt: &(impl Abort + AllocGlobal + Env)) -> Vec<String> {
    let mut words = Vec::new(rt.alloc());
    for word in env::args(rt).expect(rt, "words").skip(2) {
        words.push(word).expect(rt, "memory");
    }
    words
}

fn text_of(rt: &(impl Abort + AllocGlobal + Files), path: &str) -> String {
    fs::read_to_string(rt, path).expect(rt, "a file")
}

fn try_files(rt: &(impl Abort + AllocGlobal + Files + Print), output: &str, options: &Options) {
    let acl = options
        .acl_file
        .as_ref()
        .map(|path| text_of(rt, path.as_str()));
    let script = text_of(rt, options.script.as_deref().unwrap_or(""));
    let output = text_of(rt, output);
    let row = Row {
        acl: acl.as_deref(),
        rules: options.rules,
        limits: Limits {
            retained: options.max_retained,
            queued: options.max_queued.unwrap_or(Limits::new().queued),
        },
        script: script.as_str(),
        output: output.as_str(),
    };
    try_row(rt, row);
}
