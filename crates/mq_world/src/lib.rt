//! What a broker of MQTT 5 is, said by its commands and answers: the definition that the router is
//! proved against. It holds no algorithm; `Clock` adds and subtracts seconds.
#![tactic(auto)]

mod answer;
mod clock;
mod command;
mod ids;
mod limits;
mod message;
mod options;
mod refusal;

pub use answer::{Answer, Delivery, Outcome};
pub use clock::Clock;
pub use command::Command;
pub use ids::{is_client_id, is_user_name};
pub use limits::Limits;
pub use message::Message;
pub use options::SubscriptionOptions;
pub use refusal::Refusal;
