ghost use Rattle.std.specs.Prelude.{◌≡◌, IfOk, IfErr, IsTrue};
ghost use Rattle.mq_topic.specs.Texts.{filter_fault, of_text, accepts, is_filter};
ghost use Rattle.std.specs.Prelude.{Some, nat_eq};
ghost use Rattle.std.specs.Ordering.{nat_cmp};
ghost use Rattle.std.specs.Cmp;
ghost use Rattle.std.specs.Cmp.Lexicographic.{pointwise, slice_cmp, nat_list_eq_equiv};
ghost use Rattle.std.specs.Cmp.Lexicographic.{nat_list_cmp_total, texts_ties, texts_po};
ghost use Rattle.std.proofs.Common.{refl};

use crate::fault::TopicFault;
use crate::level_text::LevelText;
use crate::validity::filter_fault;
use std::alloc::{AllocError, Global};
use std::cmp::Ordering;
use std::marker::Model;

/// A topic filter: 1 to 65,535 bytes without U+0000, at most 200 levels, each wildcard a whole level
/// and `#` the last one (MQTT 5.0, sections 4.7.1 and 4.7.3). It takes its memory from the allocator
/// that it was parsed with.
///
/// Filters are `#`, `a/#`, `+/b`, `/a` and `a//b`; an empty text, `a#`, `a/#/b` and `a+/b` are not.
#[derive(Debug)]
pub struct TopicFilter {
    text: String,
}

// Opaque to callers' proofs: one step, and not one for each field (docs/explanation/gate.md).
impl Drop for TopicFilter {
    fn drop(self) {
        let TopicFilter { text: _ } = self;
    }
}

impl Model for TopicFilter {
    ghost use Rattle.std.specs.Prelude.{ℕ, List, IsTrue, string_bytes};
    ghost use Rattle.mq_topic.specs.Texts.{is_filter};

    ghost Value = { List ℕ };

    ghost view = { λ filter. string_bytes filter.text };

    ghost invariant = { λ filter. IsTrue (is_filter (string_bytes filter.text)) };
}

impl TopicFilter {
    /// The filter with this text, or the first fault of the text. The text is tested before memory is taken.
    pub fn parse(alloc: Global, text: &str) -> Result<TopicFilter, TopicFault>
        ensures text { IfOk result (λ filter. filter ≡ text.now) }
        ensures valid { accepts result ≡ is_filter text.now }
        ensures fault { IfErr result (λ fault. filter_fault text.now ≡ of_text fault) }
    {
        if let Some(fault) = filter_fault(text) {
            return Err(fault);
        }
        match TopicFilter::new(alloc, text) {
            Ok(filter) => Ok(filter),
            Err(_) => Err(TopicFault::Memory),
        }
    }

    // The filter with this valid text.
    pub(crate) fn new(alloc: Global, text: &str) -> Result<TopicFilter, AllocError>
        requires { IsTrue (is_filter text.now) }
        ensures { IfOk result (λ filter. filter ≡ text.now) }
    {
        Ok(TopicFilter {
            text: String::from_str(alloc, text)?,
        })
    }

    /// Another filter with the same text.
    pub fn clone(&self) -> Result<TopicFilter, AllocError>
        ensures { IfOk result (λ copy. copy ≡ self.now) }
    {
        Ok(TopicFilter {
            text: self.text.clone()?,
        })
    }
}

impl LevelText for TopicFilter {
    ghost text_of = { λ filter. filter };

    fn text(&self) -> &str {
        self.text.as_str()
    }
}

impl PartialEq for TopicFilter {
    ghost eq = { pointwise nat_eq };

    ghost laws = { Cmp.partial_equiv_from_equiv nat_list_eq_equiv };

    fn eq(&self, other: &Self) -> bool {
        self.text() == other.text()
    }
}

impl Eq for TopicFilter {
    ghost laws = { nat_list_eq_equiv };
}

impl PartialOrd for TopicFilter {
    ghost partial_cmp = { λ x y. Some (slice_cmp nat_cmp x y) };

    ghost laws = { texts_po };

    fn partial_cmp(&self, other: &Self) -> Option<Ordering> {
        Some(self.cmp(other))
    }
}

/// By the bytes of the texts.
impl Ord for TopicFilter {
    ghost cmp = { slice_cmp nat_cmp };

    ghost total = { nat_list_cmp_total };

    ghost matches_partial_cmp = { λ x y. refl };

    ghost matches_eq = { texts_ties };

    fn cmp(&self, other: &Self) -> Ordering {
        self.text().cmp(other.text())
    }
}
