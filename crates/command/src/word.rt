// Words, and the blanks between them.
ghost use Rattle.std.specs.Prelude.{◌≡◌, ◌<◌, not, [], ◌∷◌, length, MatchOption};
ghost use Rattle.std.specs.List.{position};
ghost use Rattle.command.specs.Words.{blank, legible, all_legible, words};

fn is_blank(b: u8) -> bool
    ensures { result ≡ blank b }
{
    matches!(b, b' ' | b'\t' | b'\r')
}

fn is_legible(b: u8) -> bool
    ensures { result ≡ legible b }
{
    is_blank(b) || b.is_ascii_graphic()
}

// Has the text only blanks and printable characters?
pub fn is_all_legible(text: &[u8]) -> bool
    ensures { result ≡ all_legible text.now }
{
    text.iter().all(|b| is_legible(*b))
}

// Where the first byte stands that is no blank.
fn word_start(text: &[u8]) -> Option<usize>
    ensures { result ≡ position (λ b. not (blank b)) text.now }
{
    text.iter().position(|b| !is_blank(*b))
}

// Where the first blank stands.
fn word_end(text: &[u8]) -> Option<usize>
    ensures { result ≡ position blank text.now }
{
    text.iter().position(|b| is_blank(*b))
}

// The first word of a text, and what stands behind it.
pub fn next_word(text: &[u8]) -> Option<(&[u8], &[u8])>
    ensures { MatchOption result (words text.now ≡ []) (λ p. (words text.now ≡ p.0.now ∷ words p.1.now) × (length p.1.now < length text.now)) }
{
    let text = &text[word_start(text)?..];
    Some(text.split_at(word_end(text).unwrap_or(text.len())))
}
