ghost use Rattle.std.specs.Prelude.{◌≡◌};
ghost use Rattle.std.specs.Option.{option_copied};
ghost use Rattle.mq_differences.specs.Classes.{class_order, user_of};
ghost use Rattle.mq_differences.specs.Questions.{class_of};

use mq_witness::Clients;
use std::cmp::Ordering;

/// The clients that a difference concerns.
#[derive(Drop)]
pub enum Class {
    /// Those without a user name.
    Anonymous,
    /// Those of this user name, which a list names.
    User(String),
    /// Those of all user names that neither list names; this is one of them.
    Others(String),
}

impl Class {
    /// The user name of the client that is shown, if it has one.
    pub fn user(&self) -> Option<&str>
        ensures { option_copied result ≡ user_of self.now }
    {
        match self {
            Class::Anonymous => None,
            Class::User(name) | Class::Others(name) => Some(name.as_str()),
        }
    }

    /// Those without a user name first, then those of each user name in the order of their bytes, then all others.
    pub(crate) fn order(&self, other: &Class) -> Ordering
        ensures { result ≡ class_order self.now other.now }
    {
        match (self, other) {
            (Class::Anonymous, Class::Anonymous) => Ordering::Equal,
            (Class::User(name), Class::User(other)) => name.as_str().cmp(other.as_str()),
            (Class::Others(_), Class::Others(_)) => Ordering::Equal,
            (Class::Anonymous, _) | (_, Class::Others(_)) => Ordering::Less,
            _ => Ordering::Greater,
        }
    }
}

/// The class of clients of which one has this user name, or none.
pub fn class_of(clients: Clients, user: Option<String>) -> Class
    ensures { result ≡ class_of clients.entry user }
{
    match (clients, user) {
        (Clients::Named(_), Some(user)) => Class::User(user),
        (Clients::Others, Some(user)) => Class::Others(user),
        _ => Class::Anonymous,
    }
}
