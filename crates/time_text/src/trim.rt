//! Texts without the blanks at their ends.
ghost use Rattle.std.specs.Prelude.{◌≡◌};
ghost use Rattle.fix_point.specs.Grammar.{is_blank};
ghost use Rattle.time_text.specs.Trimmed.{without_leading_blanks, without_trailing_blanks, trimmed};

/// Whether the byte is a space or a tab.
fn is_blank_byte(byte: u8) -> bool
    ensures { result ≡ is_blank byte }
{
    byte == b' ' || byte == b'\t'
}

/// The text without the blanks before its first other byte.
fn without_leading(text: &[u8]) -> &[u8]
    ensures { result.now ≡ without_leading_blanks text.now }
{
    let mut rest = text;
    while let [first, others @ ..] = rest {
        if !is_blank_byte(*first) {
            break;
        }
        rest = others;
    }
    rest
}

/// The text without the blanks after its last other byte.
fn without_trailing(text: &[u8]) -> &[u8]
    ensures { result.now ≡ without_trailing_blanks text.now }
{
    let mut rest = text;
    while let [others @ .., last] = rest {
        if !is_blank_byte(*last) {
            break;
        }
        rest = others;
    }
    rest
}

/// The text without the spaces and tabs at both ends. Takes no memory.
pub fn trimmed_text(text: &[u8]) -> &[u8]
    ensures { result.now ≡ trimmed text.now }
{
    without_trailing(without_leading(text))
}
