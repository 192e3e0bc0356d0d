// How numbers are spelled.
ghost use Rattle.std.specs.Prelude.{◌≡◌, ◌-◌, ◌^◌};
ghost use Rattle.std.specs.Str.{all_ascii_digits};
ghost use Rattle.dc_words.specs.CommandOfWords.{has_no_leading_zero, is_numeral, number_in};

fn are_digits(bytes: &[u8]) -> bool
    ensures { result ≡ all_ascii_digits bytes.now }
{
    for byte in bytes {
        if !byte.is_ascii_digit() {
            return false;
        }
    }
    true
}

fn has_no_leading_zero(text: &[u8]) -> bool
    ensures { result ≡ has_no_leading_zero text.now }
{
    !text.is_empty() && (text.len() == 1 || text[0] != b'0')
}

fn is_numeral(text: &str) -> bool
    ensures { result ≡ is_numeral text.now }
{
    are_digits(text.as_bytes()) && has_no_leading_zero(text.as_bytes())
}

/// The number from `low` to `high` that the text spells.
pub(crate) fn number_in(text: &str, low: u16, high: u16) -> Option<u16>
    ensures { result ≡ number_in low high text.now }
{
    if !is_numeral(text) {
        return None;
    }
    let Ok(number) = text.parse::<u16>() else {
        return None;
    };
    if low <= number && number <= high {
        Some(number)
    } else {
        None
    }
}

/// The number below 2^64 that the text spells.
pub(crate) fn whole_number(text: &str) -> Option<u64>
    ensures { result ≡ number_in 0 (2 ^ 64 - 1) text.now }
{
    if !is_numeral(text) {
        return None;
    }
    let Ok(number) = text.parse::<u64>() else {
        return None;
    };
    Some(number)
}
