ghost use Rattle.std.specs.Prelude.{◌≡◌, IfOk, IfErr, IsTrue};
ghost use Rattle.mq_topic.specs.Texts.{name_fault, of_text, accepts, is_name, is_filter};
ghost use Rattle.std.specs.Prelude.{Some, nat_eq};
ghost use Rattle.std.specs.Ordering.{nat_cmp};
ghost use Rattle.std.specs.Cmp;
ghost use Rattle.std.specs.Cmp.Lexicographic.{pointwise, slice_cmp, nat_list_eq_equiv};
ghost use Rattle.std.specs.Cmp.Lexicographic.{nat_list_cmp_total, texts_ties, texts_po};
ghost use Rattle.std.proofs.Common.{refl};

use crate::fault::TopicFault;
use crate::level_text::LevelText;
use crate::validity::name_fault;
use std::alloc::{AllocError, Global};
use std::cmp::Ordering;
use std::marker::Model;

/// A topic name: 1 to 65,535 bytes without U+0000, `+` and `#`, at most 200 levels (MQTT 5.0, sections 4.7.1
/// and 4.7.3). A name may begin with `$`.
#[derive(Debug)]
pub struct TopicName {
    text: String,
}

// Opaque to callers' proofs: one step, and not one for each field (docs/explanation/gate.md).
impl Drop for TopicName {
    fn drop(self) {
        let TopicName { text: _ } = self;
    }
}

impl Model for TopicName {
    ghost use Rattle.std.specs.Prelude.{ℕ, List, IsTrue, string_bytes};
    ghost use Rattle.mq_topic.specs.Texts.{is_name};

    ghost Value = { List ℕ };

    ghost view = { λ name. string_bytes name.text };

    ghost invariant = { λ name. IsTrue (is_name (string_bytes name.text)) };
}

impl TopicName {
    /// The name with this text, or the first fault of the text. The text is tested before memory is taken.
    pub fn parse(alloc: Global, text: &str) -> Result<TopicName, TopicFault>
        ensures text { IfOk result (λ name. name ≡ text.now) }
        ensures valid { accepts result ≡ is_name text.now }
        ensures fault { IfErr result (λ fault. name_fault text.now ≡ of_text fault) }
    {
        if let Some(fault) = name_fault(text) {
            return Err(fault);
        }
        match String::from_str(alloc, text) {
            Ok(text) => Ok(TopicName { text }),
            Err(_) => Err(TopicFault::Memory),
        }
    }

    /// Another name with the same text.
    pub fn clone(&self) -> Result<TopicName, AllocError>
        ensures { IfOk result (λ copy. copy ≡ self.now) }
    {
        Ok(TopicName {
            text: self.text.clone()?,
        })
    }
}

impl LevelText for TopicName {
    ghost text_of = { λ name. name };

    #[tactic(auto, using(crate::proofs::TextLemmas::name_is_filter))]
    fn text(&self) -> &str
        ensures text { result.now ≡ self.now }
        ensures valid { IsTrue (is_filter self.now) }
        ensures name { IsTrue (is_name self.now) }
    {
        self.text.as_str()
    }
}

impl PartialEq for TopicName {
    ghost eq = { pointwise nat_eq };

    ghost laws = { Cmp.partial_equiv_from_equiv nat_list_eq_equiv };

    fn eq(&self, other: &Self) -> bool {
        self.text() == other.text()
    }
}

impl Eq for TopicName {
    ghost laws = { nat_list_eq_equiv };
}

impl PartialOrd for TopicName {
    ghost partial_cmp = { λ x y. Some (slice_cmp nat_cmp x y) };

    ghost laws = { texts_po };

    fn partial_cmp(&self, other: &Self) -> Option<Ordering> {
        Some(self.cmp(other))
    }
}

/// By the bytes of the texts.
impl Ord for TopicName {
    ghost cmp = { slice_cmp nat_cmp };

    ghost total = { nat_list_cmp_total };

    ghost matches_partial_cmp = { λ x y. refl };

    ghost matches_eq = { texts_ties };

    fn cmp(&self, other: &Self) -> Ordering {
        self.text().cmp(other.text())
    }
}
