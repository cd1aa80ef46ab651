ghost use Rattle.std.specs.Prelude.{◌≡◌, IsTrue};
ghost use Rattle.mq_topic.specs.Texts.{is_filter};

use crate::level_text::LevelText;
use std::marker::Model;

/// A topic filter that is a part of a text and takes no memory of its own, such as a key to look up by.
#[derive(Drop)]
pub struct FilterText<'a> {
    text: &'a str,
}

impl<'a> Model for FilterText<'a> {
    ghost use Rattle.std.specs.Prelude.{ℕ, List, IsTrue};
    ghost use Rattle.mq_topic.specs.Texts.{is_filter};

    ghost Value = { List ℕ };

    ghost view = { λ filter. filter.text.now };

    ghost invariant = { λ filter. IsTrue (is_filter filter.text.now) };
}

impl<'a> FilterText<'a> {
    // The filter that this valid text is.
    pub(crate) fn new(text: &'a str) -> FilterText<'a>
        requires { IsTrue (is_filter text.now) }
        ensures { result ≡ text.now }
    {
        FilterText { text }
    }
}

impl<'a> LevelText for FilterText<'a> {
    ghost text_of = { λ filter. filter };

    fn text(&self) -> &str {
        self.text
    }
}
