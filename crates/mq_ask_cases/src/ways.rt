//! What is gained and what is lost, and which of it is asked about.
ghost use Rattle.std.specs.Prelude.{◌≡◌};
ghost use Rattle.mq_ask_cases.specs.Ways.{is_way, rows_word, way_text};

use mq_differences::Way;

/// Whether it is asked of this way.
pub fn is_way(only: Option<Way>, way: Way) -> bool
    ensures { result ≡ is_way only way }
{
    match (only, way) {
        (None, _) => true,
        (Some(Way::Gained), Way::Gained) => true,
        (Some(Way::Lost), Way::Lost) => true,
        _ => false,
    }
}

/// Whether it is gained or lost.
pub fn way_word(way: Way) -> &'static str
    ensures { result.now ≡ way_text way }
{
    match way {
        Way::Gained => "gained",
        Way::Lost => "lost",
    }
}

/// What so many rows of a comparison are, where of one way alone or of both is asked.
pub fn rows_word(count: usize, only: Option<Way>) -> &'static str
    ensures { result.now ≡ rows_word count only }
{
    match only {
        None if count == 1 => "difference",
        None => "differences",
        Some(way) => way_word(way),
    }
}
