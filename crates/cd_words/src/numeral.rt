//! Numerals.
ghost use Rattle.std.specs.Prelude.{◌≡◌};
ghost use Rattle.cd_words.specs.Form.{numeral, begins_above_zero};

/// The number of a numeral: 1 to 10 ASCII digits, the first of them not 0. `None` for any other text.
pub fn numeral(text: &str) -> Option<u64>
    ensures { result ≡ numeral text.now }
{
    if text.len() > 10 || !begins_above_zero(text.as_bytes()) {
        return None;
    }
    text.parse::<u64>().ok()
}

/// Whether the first byte is an ASCII digit other than 0.
fn begins_above_zero(text: &[u8]) -> bool
    ensures { result ≡ begins_above_zero text.now }
{
    match text {
        [] => false,
        [first, ..] => b'1' <= *first && *first <= b'9',
    }
}
