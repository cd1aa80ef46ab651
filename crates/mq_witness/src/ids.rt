//! Which texts can be levels, client ids and user names.
ghost use Rattle.std.specs.Prelude.{◌≡◌};
ghost use Rattle.std.specs.Option.{option_copied};
ghost use Rattle.mq_topic.specs.Texts.{contains_byte};
ghost use Rattle.mq_cover.specs.Names.{can_be_level};
ghost use Rattle.mq_witness.specs.Clients.{can_be_id};
ghost use Rattle.mq_witness.specs.Texts.{level_of};

fn has_byte(text: &str, byte: u8) -> bool
    ensures { result ≡ contains_byte byte text.now }
{
    text.bytes().any(|other| other == byte)
}

/// Whether a level of a name can be this text.
pub(crate) fn can_be_level(text: &str) -> bool
    ensures { result ≡ can_be_level text.now }
{
    !has_byte(text, b'+') && !has_byte(text, b'#') && !has_byte(text, 0) && !has_byte(text, b'/')
}

/// The level that an id is, if it can be one.
pub(crate) fn level_of(id: Option<&str>) -> Option<&str>
    ensures { option_copied result ≡ level_of (option_copied id.entry) }
{
    id.filter(|text| can_be_level(text))
}

/// Whether a client id, or a user name, can be this text.
pub(crate) fn can_be_id(text: &str) -> bool
    ensures { result ≡ can_be_id text.now }
{
    !text.is_empty() && text.len() <= 65_535 && !has_byte(text, 0)
}
