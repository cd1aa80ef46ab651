//! The command line of `mqroute-acl`: what is asked of access lists.
#![tactic(auto)]

mod command_line;
mod files;
mod help;
mod question;
mod request;
mod unknown;

pub use command_line::arguments;
pub use files::is_input;
pub use mq_args::UsageFault;
pub use question::{Compare, Question, Reach, Subscriptions, Test, Through, Who, Why, WhyEach};
pub use request::Request;
