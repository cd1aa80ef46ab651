//! Two of the worked rows. Made by dev/hostile_scripts.py from tests/rows.

/// A script and what is written for it.
pub(crate) struct Row {
    pub(crate) script: &'static str,
    pub(crate) output: &'static str,
}

pub(crate) static FIRST_LOOK: Row = Row {
    script: r##"{"do":"connect","client":"a"}
{"do":"subscribe","client":"a","filter":"a/#","qos":1}
{"do":"publish","client":"a","topic":"a","payload":"x","qos":2}
{"do":"publish","client":"a","topic":"a/","payload":"y"}
{"do":"publish","client":"a","topic":"a/b/c"}
{"do":"publish","client":"a","topic":"b","payload":"z"}
"##,
    output: r##"{"line":1,"reason":0}
{"line":2,"reason":1}
{"client":"a","line":3,"payload":"x","qos":1,"retain":false,"topic":"a"}
{"line":3,"reason":0}
{"client":"a","line":4,"payload":"y","qos":0,"retain":false,"topic":"a/"}
{"line":4,"reason":0}
{"client":"a","line":5,"payload":"","qos":0,"retain":false,"topic":"a/b/c"}
{"line":5,"reason":0}
{"line":6,"reason":16}
"##,
};

pub(crate) static REFUSALS: Row = Row {
    script: r##"{"do":"connect","client":"a"}
{"do":"subscribe","client":"a","filter":"$share//t"}
{"do":"subscribe","client":"a","filter":"$share/g/t","no_local":true}
{"do":"publish","client":"a","topic":"a/+","payload":"x"}
{"do":"publish","client":"b","topic":"t","payload":"x"}
{"do":"connect","client":""}
{"do":"connect"
[]
{"do":"fly"}
{"do":"subscribe","client":"a","filter":"t","qos":3}
{"do":"subscribe","client":"a","filter":"t","id":0}
{"do":"publish","client":"a","topic":"t","extra":1}
{"do":"connect","client":"a","user":"\u0000"}
{"do":"publish","client":"a","topic":"t","payload":"x"}
"##,
    output: r##"{"line":1,"reason":0}
{"code":9,"line":2,"refused":"TopicFilter"}
{"code":10,"line":3,"refused":"SharedNoLocal"}
{"code":8,"line":4,"refused":"TopicName"}
{"code":7,"line":5,"refused":"NotConnected"}
{"code":5,"line":6,"refused":"ClientId"}
{"code":2,"line":7,"refused":"BadJson"}
{"code":3,"line":8,"refused":"BadCommand"}
{"code":3,"line":9,"refused":"BadCommand"}
{"code":4,"line":10,"refused":"BadField"}
{"code":4,"line":11,"refused":"BadField"}
{"code":4,"line":12,"refused":"BadField"}
{"code":6,"line":13,"refused":"UserName"}
{"line":14,"reason":16}
"##,
};
