//! Calls that answer a value or a fault.
use crate::tests::devices::Script;
use crate::tests::refused::growth::{refuse, was_refused};
use crate::tests::refused::trial::Trial;
use mq_acl::Acl;
use mq_cli::{arguments, read_acl};
use mq_jsonl::read_line;
use mq_topic::{SubFilter, TopicFilter, TopicName};
use mq_tree::{LevelTree, Steps};
use std::fmt::Debug;
use std::process::Abort;

#[derive(Clone, Copy)]
pub(crate) enum Call<'a> {
    ParseName(&'a str),
    ParseFilter(&'a str),
    ParseSubscription(&'a str),
    CloneName(&'a TopicName),
    CloneFilter(&'a TopicFilter),
    CloneSubscription(&'a SubFilter),
    ReadList(&'a str),
    ReadListFile(&'a [u8]),
    ReadLine(&'a [u8]),
    ReadWords(&'a [String]),
    ForName(&'a LevelTree<u32>, &'a TopicName),
    ForFilter(&'a LevelTree<u32>, &'a TopicFilter),
}

/// What lack of memory is in words. In an access list no line is at fault then.
const NO_MEMORY: [&str; 3] = [
    "Err(AllocError)",
    "Err(Memory)",
    "Err(AclFault { line: 0, kind: Memory })",
];

// An answer in words, and whether a growth was refused. The words are made once none is refused any more.
fn answered<T: Debug + Drop, E: Debug + Drop>(
    rt: &(impl Abort + AllocGlobal),
    answer: Result<T, E>,
) -> (String, bool) {
    let was_refused = was_refused(rt.alloc());
    let text = format!(in rt.alloc(); "{answer:?}").expect(rt, "memory");
    (text, was_refused)
}

impl<'a> Call<'a> {
    // Makes the call while its nth growth is refused.
    fn answer(self, rt: &(impl Abort + AllocGlobal), nth: u32) -> (String, bool) {
        let alloc = rt.alloc();
        refuse(alloc, nth);
        match self {
            Call::ParseName(text) => answered(rt, TopicName::parse(alloc, text)),
            Call::ParseFilter(text) => answered(rt, TopicFilter::parse(alloc, text)),
            Call::ParseSubscription(text) => answered(rt, SubFilter::parse(alloc, text)),
            Call::CloneName(name) => answered(rt, TopicName::clone(name)),
            Call::CloneFilter(filter) => answered(rt, TopicFilter::clone(filter)),
            Call::CloneSubscription(wanted) => answered(rt, SubFilter::clone(wanted)),
            Call::ReadList(text) => answered(rt, Acl::read(alloc, text)),
            Call::ReadListFile(bytes) => answered(
                rt,
                read_acl(alloc, &mut Script::new(bytes, 100)),
            ),
            Call::ReadLine(line) => answered(rt, read_line(alloc, line)),
            Call::ReadWords(words) => answered(rt, arguments(alloc, words)),
            Call::ForName(tree, name) => answered(rt, tree.for_name(name, &mut Steps::new())),
            Call::ForFilter(tree, wanted) => answered(
                rt,
                tree.for_filter(wanted, &mut Steps::new()),
            ),
        }
    }
}

impl<'a> Trial for Call<'a> {
    // The answer is the one with ample memory, or lack of memory where a growth was refused. Then the next call answers
    // as if nothing had happened.
    fn attempt<R: Abort + AllocGlobal>(&self, rt: &R, nth: u32) -> bool {
        let (wanted, _) = self.answer(rt, 0);
        let (text, was_refused) = self.answer(rt, nth);
        assert!(rt; !NO_MEMORY.contains(&wanted.as_str()));
        let is_wanted = text == wanted || was_refused && NO_MEMORY.contains(&text.as_str());
        assert!(rt; is_wanted, "growth {nth}: {text}");
        let (next, _) = self.answer(rt, 0);
        assert!(rt; next == wanted);
        was_refused
    }
}
