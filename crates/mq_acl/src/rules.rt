//! By whose rules an access list is read, and decides.
ghost use Rattle.std.specs.Prelude.{◌≡◌};
ghost use Rattle.mq_acl.specs.AccessLists.{rules_named};

/// By whose rules an access list is read, and decides.
#[derive(Clone, Copy, Debug, PartialEq, Eq)]
pub enum Rules {
    /// Our own.
    Own,
    /// Those of mosquitto 2.0.
    Mosquitto,
}

impl Rules {
    /// The rules that a word names: `own` or `mosquitto`.
    pub fn named(word: &str) -> Option<Rules>
        ensures { result ≡ rules_named word.now }
    {
        match word {
            "own" => Some(Rules::Own),
            "mosquitto" => Some(Rules::Mosquitto),
            _ => None,
        }
    }
}
