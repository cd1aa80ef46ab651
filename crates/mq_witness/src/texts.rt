ghost use Rattle.std.specs.Prelude.{◌≡◌, IfOk};
ghost use Rattle.std.specs.List.{list_any};
ghost use Rattle.std.specs.Str.{bytes_eq};
ghost use Rattle.mq_witness.specs.Literals.{is_named};
ghost use Rattle.mq_witness.specs.FreshTexts.{AreLonger, AreNew, IsSeen, client_base, fresh_texts};
ghost use Rattle.mq_witness.specs.FreshTexts.{user_base};

use crate::fresh::{Fresh, fresh_text, longest_text};
use crate::literals::Literals;
use mq_cover::Others;
use std::alloc::{AllocError, Global};

/// The texts that `Fresh` lends.
pub(crate) struct FreshTexts {
    plain: String,
    dollar: String,
    client: String,
    user: String,
}

// Opaque to callers' proofs: one step, and not one for each field (docs/explanation/gate.md).
impl Drop for FreshTexts {
    fn drop(self) {
        let FreshTexts {
            plain: _,
            dollar: _,
            client: _,
            user: _,
        } = self;
    }
}

fn client_base(dollar: bool) -> &'static str
    ensures { result.now ≡ client_base dollar }
{
    if dollar { "$client" } else { "client" }
}

fn user_base(dollar: bool) -> &'static str
    ensures { result.now ≡ user_base dollar }
{
    if dollar { "$user" } else { "user" }
}

impl FreshTexts {
    /// Texts that are none of these, of which none is longer than 300 bytes; the ids begin with `$`, or don't.
    pub fn find(alloc: Global, dollar: bool, literals: &Literals) -> Result<FreshTexts, AllocError>
        ensures { IfOk result (λ texts. AreNew dollar texts (λ l. is_named l literals.now)) }
    {
        Ok(FreshTexts {
            plain: fresh_text(alloc, "x", literals)?,
            dollar: fresh_text(alloc, "$x", literals)?,
            client: fresh_text(alloc, client_base(dollar), literals)?,
            user: fresh_text(alloc, user_base(dollar), literals)?,
        })
    }

    /// Texts that are longer than all of at most 300 bytes.
    pub fn longest(alloc: Global) -> Result<FreshTexts, AllocError>
        ensures { IfOk result AreLonger }
    {
        Ok(FreshTexts {
            plain: longest_text(alloc, "x")?,
            dollar: longest_text(alloc, "$x")?,
            client: longest_text(alloc, "client")?,
            user: longest_text(alloc, "user")?,
        })
    }

    /// Whether the text is one of them.
    pub fn has(&self, text: &str) -> bool
        ensures { result ≡ list_any (bytes_eq text.now) (fresh_texts self.now) }
    {
        text == self.plain.as_str()
            || text == self.dollar.as_str()
            || text == self.client.as_str()
            || text == self.user.as_str()
    }

    pub fn fresh(&self) -> Fresh<'_>
        ensures { IsSeen self.now result }
    {
        Fresh {
            others: Others {
                plain: self.plain.as_str(),
                dollar: self.dollar.as_str(),
            },
            client: self.client.as_str(),
            user: self.user.as_str(),
        }
    }
}
