//! The router as a library: an example, which docs/explanation/calling.md speaks of. A client is sent what it publishes.
#![tactic(auto)]

mod copies;

pub use copies::copies_of;
use mq_router::{Command, Refusal, Router};
use std::alloc::{AllocError, Global};

fn connect(alloc: Global) -> Result<Command, AllocError> {
    Ok(Command::Connect {
        client: String::from_str(alloc, "press")?,
        user: None,
        clean: true,
        session_expiry: 0,
    })
}

fn subscribe(alloc: Global) -> Result<Command, AllocError> {
    Ok(Command::Subscribe {
        client: String::from_str(alloc, "press")?,
        filter: String::from_str(alloc, "mill/+/state")?,
        qos: 1,
        no_local: false,
        rap: false,
        handling: 0,
        id: None,
    })
}

fn publish(alloc: Global) -> Result<Command, AllocError> {
    Ok(Command::Publish {
        client: String::from_str(alloc, "press")?,
        topic: String::from_str(alloc, "mill/press/state")?,
        payload: String::from_str(alloc, "on")?,
        qos: 1,
        retain: false,
        expiry: None,
    })
}

// How many copies a command sends: none if it has a field out of range.
fn count(router: &mut Router, command: &Command) -> Result<usize, Refusal> {
    if !command.is_valid() {
        return Ok(0);
    }
    Ok(copies_of(router, command)?.len())
}

// A client connects, subscribes to a filter, and publishes.
fn talk(alloc: Global, router: &mut Router) -> Result<usize, Refusal> {
    count(router, &connect(alloc)?)?;
    count(router, &subscribe(alloc)?)?;
    count(router, &publish(alloc)?)
}

/// How many copies the publish of such a client sends.
pub fn sent(alloc: Global) -> Result<usize, Refusal> {
    let mut router = Router::new(alloc);
    talk(alloc, &mut router)
}
