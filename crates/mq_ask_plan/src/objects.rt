//! What changes through a plan, as JSON.
ghost use Rattle.std.specs.Prelude.{◌≡◌, ◌++◌, IfOk, OnOk, string_bytes};
ghost use Rattle.mq_ask_plan.specs.Objects.{renamed_text, renamed_texts};
ghost use Rattle.mq_print.specs.Lists.{lines_view};

use crate::compared::Compared;
use mq_ask::access_word;
use mq_ask_cases::way_word;
use mq_print::{Datum, add_object};
use mq_through::Renamed;
use mq_topic::LevelText;
use std::alloc::{AllocError, Global};

fn add_one<'a>(
    alloc: Global,
    text: &mut String,
    compared: Compared<'a>,
    renamed: &'a Renamed,
) -> Result<(), AllocError>
    ensures { OnOk result (string_bytes text.new ≡ string_bytes text.old
        ++ renamed_text (lines_view compared.entry.old) (lines_view compared.entry.new)
        (lines_view compared.entry.plan) renamed.entry.now) }
{
    let difference = &renamed.difference;
    add_object(
        alloc,
        text,
        &[
            ("access", Datum::Text(access_word(difference.direction))),
            ("change", Datum::Text(way_word(difference.way))),
            ("client", Datum::Text(difference.client.as_str())),
            (
                "new",
                Datum::LineIf(compared.new.line_if(difference.new_reason.line())),
            ),
            ("new_topic", Datum::Text(renamed.new_topic.text())),
            (
                "old",
                Datum::LineIf(compared.old.line_if(difference.old_reason.line())),
            ),
            ("placeholders", Datum::Texts(&difference.placeholders)),
            ("rule", Datum::LineIf(compared.plan.line_if(renamed.rule))),
            ("topic", Datum::Text(difference.topic.text())),
            ("user", Datum::TextIf(difference.class.user())),
        ],
    )
}

/// What changes, an object a line.
pub(crate) fn json_lines(
    alloc: Global,
    compared: Compared<'_>,
    renamed: &[Renamed],
) -> Result<String, AllocError>
    ensures { IfOk result (λ text. string_bytes text ≡ renamed_texts
        (lines_view compared.entry.old) (lines_view compared.entry.new)
        (lines_view compared.entry.plan) renamed.now) }
{
    let mut text = String::new(alloc);
    for one in renamed {
        add_one(alloc, &mut text, compared, one)?;
    }
    Ok(text)
}
