// Words and the blanks between them.
ghost use Rattle.recording.specs.Text.{blank, unblanked, behind_word, word_ends};
ghost use Rattle.std.specs.Option.{option_map};
ghost use Rattle.std.specs.Prelude.{◌≡◌};

/// Whether a byte stands between words: a space, a tab, or the end of a line.
pub(crate) fn is_blank(b: u8) -> bool
    ensures { result ≡ blank b }
{
    matches!(b, b' ' | b'\t' | b'\r' | b'\n')
}

/// The text behind the blanks in front of it.
pub(crate) fn skip_blanks(text: &[u8]) -> &[u8]
    ensures { result.now ≡ unblanked text.now }
{
    let start = text.iter().position(|b| !is_blank(*b));
    &text[start.unwrap_or(text.len())..]
}

/// What stands behind a word that the text begins with, where the word ends there.
pub(crate) fn behind_word<'a>(word: &[u8], text: &'a [u8]) -> Option<&'a [u8]>
    ensures { option_map (λ x. x.now) result ≡ behind_word word.now text.now }
{
    let rest = text.strip_prefix(word)?;
    ends_word(rest).then_some(rest)
}

fn ends_word(rest: &[u8]) -> bool
    ensures { result ≡ word_ends rest.now }
{
    rest.first().is_none_or(|b| is_blank(*b))
}
