//! Blanks in the line of an access list, as mosquitto 2.0 sees them.
ghost use Rattle.std.specs.Prelude.{◌≡◌, ◌≤◌, ◌&&◌, ◌||◌, not, length, ◌==◌, slice_index, take};
ghost use Rattle.std.specs.List.{list_any, prefix_len, position_or_len};
ghost use Rattle.mq_acl.specs.Words.{is_blank, is_ending, trimmed, first_word, after_word};
ghost use Rattle.mq_acl.specs.Words.{without_leading, without_trailing};
ghost use Rattle.mq_lint.specs.Blanks.{behind_word, begins_with_tab, takes_access};
ghost use Rattle.mq_lint.specs.Blanks.{has_tab_inside, is_comment, is_indented_comment};
ghost use Rattle.mq_lint.specs.Blanks.{is_tabbed};

fn is_blank(byte: u8) -> bool
    ensures { result ≡ is_blank byte }
{
    byte == b' ' || byte == b'\t'
}

fn is_ending(byte: u8) -> bool
    ensures { result ≡ is_ending byte }
{
    byte == b' ' || byte == b'\t' || byte == b'\r'
}

fn blank_len(text: &[u8]) -> usize
    ensures count { result ≡ prefix_len is_blank text.now }
    ensures within { result ≤ length text.now }
{
    text.iter().take_while(|byte| is_blank(**byte)).count()
}

fn without_blanks(text: &[u8]) -> &[u8]
    ensures { result.now ≡ without_leading is_blank text.now }
{
    &text[blank_len(text)..]
}

/// The text without the blanks and CRs behind it.
pub(crate) fn without_endings(text: &[u8]) -> &[u8]
    ensures { result.now ≡ without_trailing is_ending text.now }
{
    let mut end = text.len();
    while end > 0 && is_ending(text[end - 1]) {
        end -= 1;
    }
    &text[..end]
}

// The line without the blanks round it.
fn trimmed(line: &[u8]) -> &[u8]
    ensures { result.now ≡ trimmed line.now }
{
    without_endings(without_blanks(line))
}

fn word_len(text: &[u8]) -> usize
    ensures count { result ≡ position_or_len is_blank text.now }
    ensures within { result ≤ length text.now }
{
    text.iter().take_while(|byte| !is_blank(**byte)).count()
}

fn first_word(text: &[u8]) -> &[u8]
    ensures { result.now ≡ first_word text.now }
{
    &text[..word_len(text)]
}

fn behind_word(text: &[u8]) -> &[u8]
    ensures { result.now ≡ behind_word text.now }
{
    &text[word_len(text)..]
}

fn begins_with_tab(text: &[u8]) -> bool
    ensures { result ≡ begins_with_tab text.now }
{
    text.iter()
        .take_while(|byte| is_blank(**byte))
        .any(|byte| *byte == b'\t')
}

fn takes_access(word: &[u8]) -> bool
    ensures { result ≡ takes_access word.now }
{
    word == b"topic".as_slice() || word == b"pattern".as_slice()
}

// Whether a tab parts two words of this text without blanks round it.
fn has_tab_inside(text: &[u8]) -> bool
    ensures { result ≡ has_tab_inside text.now }
{
    let rest = behind_word(text);
    if begins_with_tab(rest) {
        return true;
    }
    takes_access(first_word(text)) && begins_with_tab(behind_word(without_blanks(rest)))
}

fn is_comment(text: &[u8]) -> bool
    ensures { result ≡ is_comment text.now }
{
    text.first() == Some(&b'#')
}

/// Whether blanks stand before the `#` of a comment.
pub(crate) fn is_indented_comment(line: &[u8]) -> bool
    ensures { result ≡ is_indented_comment line.now }
{
    is_comment(trimmed(line)) && !is_comment(line)
}

/// Whether a tab stands before or between the words of a line that is not a comment.
pub(crate) fn is_tabbed(line: &[u8]) -> bool
    ensures { result ≡ is_tabbed line.now }
{
    let text = trimmed(line);
    if text.is_empty() || is_comment(text) {
        return false;
    }
    begins_with_tab(line) || has_tab_inside(text)
}
