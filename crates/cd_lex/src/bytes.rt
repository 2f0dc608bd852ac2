//! What a byte may stand for.
ghost use Rattle.std.specs.Prelude.{◌≡◌};
ghost use Rattle.cd_base.specs.Iri.{is_iri_byte};
ghost use Rattle.cd_lex.specs.Tokens.{is_between, is_blank, is_letter, is_name_byte, is_lang_byte, ends_line};

/// Whether the byte is from `low` to `high`.
pub fn is_between(low: u8, high: u8, byte: u8) -> bool
    ensures { result ≡ is_between low high byte }
{
    low <= byte && byte <= high
}

/// A space, a tabulator, a line feed or a carriage return.
pub fn is_blank(byte: u8) -> bool
    ensures { result ≡ is_blank byte }
{
    byte == b' ' || byte == b'\t' || byte == b'\n' || byte == b'\r'
}

/// An ASCII letter.
pub fn is_letter(byte: u8) -> bool
    ensures { result ≡ is_letter byte }
{
    is_between(b'A', b'Z', byte) || is_between(b'a', b'z', byte)
}

/// A byte of a word or of a short name. Bytes above 127 pass unchecked.
pub fn is_name_byte(byte: u8) -> bool
    ensures { result ≡ is_name_byte byte }
{
    is_letter(byte)
        || is_between(b'0', b'9', byte)
        || byte == b'_'
        || byte == b'-'
        || byte == b'.'
        || byte == b'%'
        || byte == b':'
        || 127 < byte
}

/// A byte of a language tag behind its first.
pub fn is_lang_byte(byte: u8) -> bool
    ensures { result ≡ is_lang_byte byte }
{
    is_letter(byte) || is_between(b'0', b'9', byte) || byte == b'-'
}

/// A byte of a full IRI.
pub fn is_iri_byte(byte: u8) -> bool
    ensures { result ≡ is_iri_byte byte }
{
    32 < byte && byte != b'<' && byte != b'>'
}

/// What ends a comment.
pub fn ends_line(byte: u8) -> bool
    ensures { result ≡ ends_line byte }
{
    byte == b'\n' || byte == b'\r'
}
