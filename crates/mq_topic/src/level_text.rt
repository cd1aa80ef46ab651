ghost use Rattle.std.specs.Prelude.{◌≡◌, ◌<◌, ℕ, List, length, IsTrue, Some, slice_get};
ghost use Rattle.mq_topic.specs.Levels.{levels};
ghost use Rattle.mq_topic.specs.Texts.{is_filter};

use crate::levels::{count, level_at};

/// A text that is a valid topic filter, as each topic name is, with its levels: the pieces between its
/// slashes, empty ones too (MQTT 5.0, section 4.7.1.1). None of its calls takes memory.
pub trait LevelText {
    /// The bytes of the text.
    ghost text_of: { Self → List ℕ };

    /// The text.
    fn text(&self) -> &str
        ensures text { result.now ≡ text_of self.now }
        ensures valid { IsTrue (is_filter (text_of self.now)) };

    /// How many levels the text has: one more than its slashes.
    fn level_count(&self) -> usize
        ensures { result ≡ length (levels (text_of self.now)) }
    {
        count(self.text())
    }

    /// The level at place `i`, counted from 0, lent out of the text. It walks from the front of the text:
    /// `split_first` serves a walk over all levels.
    fn level(&self, i: usize) -> &str
        requires { i < length (levels (text_of self.now)) }
        ensures { slice_get (levels (text_of self.now)) i ≡ Some result.now }
    {
        level_at(self.text(), i).unwrap()
    }
}
