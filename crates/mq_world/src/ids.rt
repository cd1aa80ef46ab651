//! Which client ids and user names a connect may have.
ghost use Rattle.std.specs.Prelude.{◌≡◌};
ghost use Rattle.std.specs.Option.{option_copied};
ghost use Rattle.mq_topic.specs.Texts.{contains_byte};
ghost use Rattle.mq_world.specs.Refusals.{is_client_id, is_user_name};

const MAX_BYTES: usize = 65_535;

fn has_nul(text: &str) -> bool
    ensures { result ≡ contains_byte 0 text.now }
{
    text.as_bytes().contains(&0)
}

/// Whether a client id has 1 to 65,535 bytes and no U+0000 (MQTT 5.0, sections 1.5.4 and 3.1.3.1).
pub fn is_client_id(id: &str) -> bool
    ensures { result ≡ is_client_id id.now }
{
    !id.is_empty() && id.len() <= MAX_BYTES && !has_nul(id)
}

/// Whether there is no user name, or one of at most 65,535 bytes and no U+0000 (MQTT 5.0, sections 1.5.4 and 3.1.3.5).
pub fn is_user_name(user: Option<&str>) -> bool
    ensures { result ≡ is_user_name (option_copied user.entry) }
{
    match user {
        None => true,
        Some(user) => user.len() <= MAX_BYTES && !has_nul(user),
    }
}
