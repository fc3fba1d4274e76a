//! The classes of bytes, and how far they go at the front of a text.
ghost use Rattle.std.specs.Prelude.{◌≡◌, length, take_while};
ghost use Rattle.qm_lex.specs.Bytes.{is_blank, is_digit, is_letter, is_word_byte, is_symbol, is_comment_byte};

/// Whether the byte is a space, a tab, a carriage return or a line feed.
pub(crate) fn is_blank(byte: u8) -> bool
    ensures { result ≡ is_blank byte }
{
    byte == b' ' || byte == b'\t' || byte == b'\r' || byte == b'\n'
}

/// Whether the byte is 0 to 9.
pub(crate) fn is_digit(byte: u8) -> bool
    ensures { result ≡ is_digit byte }
{
    b'0' <= byte && byte <= b'9'
}

/// Whether the byte is a to z, or A to Z.
pub(crate) fn is_letter(byte: u8) -> bool
    ensures { result ≡ is_letter byte }
{
    b'a' <= byte && byte <= b'z' || b'A' <= byte && byte <= b'Z'
}

/// Whether the byte may stand in a word behind its first letter.
fn is_word_byte(byte: u8) -> bool
    ensures { result ≡ is_word_byte byte }
{
    is_letter(byte) || is_digit(byte) || byte == b'_'
}

/// Whether the byte is a symbol by itself.
pub(crate) fn is_symbol(byte: u8) -> bool
    ensures { result ≡ is_symbol byte }
{
    byte == b'{'
        || byte == b'}'
        || byte == b'('
        || byte == b')'
        || byte == b'+'
        || byte == b'-'
        || byte == b'*'
        || byte == b'/'
        || byte == b'%'
}

/// How many bytes at the front may go on in a word.
pub(crate) fn word_len(rest: &[u8]) -> usize
    ensures { result ≡ length (take_while is_word_byte rest.now) }
{
    rest.iter().take_while(|byte| is_word_byte(**byte)).count()
}

/// How many digits are at the front.
pub(crate) fn number_len(rest: &[u8]) -> usize
    ensures { result ≡ length (take_while is_digit rest.now) }
{
    rest.iter().take_while(|byte| is_digit(**byte)).count()
}

/// How many bytes are before the next line feed or the end.
pub(crate) fn comment_len(rest: &[u8]) -> usize
    ensures { result ≡ length (take_while is_comment_byte rest.now) }
{
    rest.iter().take_while(|byte| **byte != b'\n').count()
}
