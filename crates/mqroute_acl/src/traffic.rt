//! The publishes of a script.
use mq_ask::Failure;
use mq_reach::begins_as_log;
use mq_traffic::{Traffic, TrafficFault, read_traffic};
use std::alloc::Global;
use std::io::Read;

fn traffic_failure<'a>(script: &'a str, fault: TrafficFault) -> Failure<'a> {
    match fault {
        TrafficFault::Read(error) => Failure::of_io(script, error),
        TrafficFault::TooLong => Failure::LongScript(script),
        TrafficFault::Memory => Failure::Memory,
    }
}

// The publishes, unless no line of the script is a command.
fn unless_no_command<'a>(traffic: Traffic, script: &'a str) -> Result<Traffic, Failure<'a>> {
    if traffic.commands() > 0 {
        return Ok(traffic);
    }
    let lines = traffic.lines();
    if begins_as_log(traffic.front()) {
        return Err(Failure::Log {
            file: script,
            lines,
        });
    }
    Err(Failure::NoCommand {
        file: script,
        lines,
    })
}

/// The publishes of the script that this reader gives, with this name. A script of which no line is
/// a command is a failure: it is another file than was meant.
pub fn find_traffic<'a, R: Read + Drop>(
    alloc: Global,
    script: &'a str,
    reader: R,
) -> Result<Traffic, Failure<'a>> {
    match read_traffic(alloc, reader) {
        Ok(traffic) => unless_no_command(traffic, script),
        Err(fault) => Err(traffic_failure(script, fault)),
    }
}
