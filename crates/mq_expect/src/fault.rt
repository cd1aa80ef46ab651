/// What is wrong with a line of a file of expectations.
#[derive(Clone, Copy, PartialEq, Eq)]
pub enum ExpectationKind {
    /// `may` isn't its second word, and it begins neither with `acl` nor with `at most` or `at least`.
    Keyword,
    /// The file behind `acl`, `at most` or `at least` is missing.
    File,
    /// Behind `may`, and `not` or `some`, stands none of `read`, `write` and `readwrite`.
    Access,
    /// The filter is missing, no valid topic filter, or a shared subscription.
    Filter,
    /// `%c` or `%u` stands in the filter and is not a whole level.
    Pattern,
    /// What follows the filter isn't `except` with names between commas, or these aren't excepted from `anyone`.
    Except,
    /// There was no memory. No line is at fault.
    Memory,
}
