//! Words for what is asked about, in texts and in JSON.
ghost use Rattle.std.specs.Prelude.{◌≡◌, Some};
ghost use Rattle.mq_ask.specs.Words.{access_named, access_text, owner_words};

use mq_acl::{Direction, Rules};

/// Whether it is read or written.
pub fn access_word(direction: Direction) -> &'static str
    ensures text { result.now ≡ access_text direction }
    ensures named { access_named result.now ≡ Some direction }
{
    match direction {
        Direction::Reading => "read",
        Direction::Writing => "write",
    }
}

/// Whether it is read or written by this word: `read` or `write`.
pub fn access_named(word: &str) -> Option<Direction>
    ensures { result ≡ access_named word.now }
{
    match word {
        "read" => Some(Direction::Reading),
        "write" => Some(Direction::Writing),
        _ => None,
    }
}

/// Whose the rules are.
pub fn rules_owner(rules: Rules) -> &'static str
    ensures { result.now ≡ owner_words rules }
{
    match rules {
        Rules::Own => "mqroute's own",
        Rules::Mosquitto => "mosquitto's",
    }
}
