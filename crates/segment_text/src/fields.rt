//! Fields of a JSON object, each with the comma before it.

ghost use Rattle.std.specs.Prelude.{◌≡◌, ◌++◌, ◌∷◌, [], true, decimal, OnOk};
ghost use Rattle.json.specs.Print.{quoted};
ghost use Rattle.serde_json.specs.Data.{string};
ghost use Rattle.serde_json.specs.Written.{comma_if};
ghost use Rattle.segment_shape.specs.Written.{at_key, at_key_if, at_key_of, whole};
ghost use Rattle.segment_text.specs.Text.{entry_text, is_plain, opened};

use itoa::Buffer;
use std::alloc::AllocError;

pub(crate) fn push_number(text: &mut Vec<u8>, number: u64) -> Result<(), AllocError>
    ensures { OnOk result (text.new.items ≡ text.old.items ++ decimal number) }
{
    let mut digits = Buffer::new();
    text.extend_from_slice(digits.format(number).as_bytes())
}

// A text between quotes, as it is.
fn push_between_quotes(text: &mut Vec<u8>, string: &str) -> Result<(), AllocError>
    ensures { OnOk result (text.new.items ≡ text.old.items ++ 34 ∷ (string.now ++ 34 ∷ [])) }
{
    text.push(b'"')?;
    text.extend_from_slice(string.as_bytes())?;
    text.push(b'"')?;
    Ok(())
}

/// A string that needs no escapes.
pub(crate) fn push_quoted(text: &mut Vec<u8>, string: &str) -> Result<(), AllocError>
    requires { is_plain string.now ≡ true }
    ensures { OnOk result (text.new.items ≡ text.old.items ++ quoted string.now) }
{
    push_between_quotes(text, string)
}

/// The comma between two elements, or two members.
pub(crate) fn push_comma_if(text: &mut Vec<u8>, later: bool) -> Result<(), AllocError>
    ensures { OnOk result (text.new.items ≡ text.old.items ++ comma_if later) }
{
    if later {
        text.push(b',')?;
    }
    Ok(())
}

/// An object up to its first value, which is a number.
#[tactic(auto, unfolding(crate::specs::Text::opened))]
pub(crate) fn open_at(text: &mut Vec<u8>, key: &str, number: u64) -> Result<(), AllocError>
    requires { is_plain key.now ≡ true }
    ensures { OnOk result (text.new.items ≡ text.old.items ++ opened key.now (whole number)) }
{
    text.push(b'{')?;
    push_quoted(text, key)?;
    text.push(b':')?;
    push_number(text, number)
}

/// A key behind another member, up to its value.
pub(crate) fn push_key(text: &mut Vec<u8>, key: &str) -> Result<(), AllocError>
    requires { is_plain key.now ≡ true }
    ensures { OnOk result (text.new.items ≡ text.old.items ++ 44 ∷ (quoted key.now ++ 58 ∷ [])) }
{
    text.push(b',')?;
    push_quoted(text, key)?;
    text.push(b':')?;
    Ok(())
}

#[tactic(auto, unfolding(crate::specs::Text::entry_text))]
pub(crate) fn push_whole(text: &mut Vec<u8>, key: &str, number: u64) -> Result<(), AllocError>
    requires { is_plain key.now ≡ true }
    ensures { OnOk result (text.new.items ≡ text.old.items ++ entry_text (at_key key.now (whole number))) }
{
    push_key(text, key)?;
    push_number(text, number)
}

#[tactic(auto, unfolding(crate::specs::Text::entry_text))]
pub(crate) fn push_string(text: &mut Vec<u8>, key: &str, value: &str) -> Result<(), AllocError>
    requires key { is_plain key.now ≡ true }
    requires value { is_plain value.now ≡ true }
    ensures { OnOk result (text.new.items ≡ text.old.items ++ entry_text (at_key key.now (string value.now))) }
{
    push_key(text, key)?;
    push_quoted(text, value)
}

/// A number that stands there where it belongs.
#[tactic(auto, unfolding(crate::specs::Text::entry_text))]
pub(crate) fn push_whole_if(
    text: &mut Vec<u8>,
    belongs: bool,
    key: &str,
    number: u64,
) -> Result<(), AllocError>
    requires { is_plain key.now ≡ true }
    ensures { OnOk result (text.new.items ≡ text.old.items ++ entry_text (at_key_if belongs key.now (whole number))) }
{
    if belongs {
        push_key(text, key)?;
        push_number(text, number)?;
    }
    Ok(())
}

/// A number that stands there where there is one.
#[tactic(auto, unfolding(crate::specs::Text::entry_text))]
pub(crate) fn push_whole_of(
    text: &mut Vec<u8>,
    key: &str,
    number: Option<u32>,
) -> Result<(), AllocError>
    requires { is_plain key.now ≡ true }
    ensures { OnOk result (text.new.items ≡ text.old.items ++ entry_text (at_key_of whole key.now number)) }
{
    if let Some(number) = number {
        push_key(text, key)?;
        push_number(text, u64::from(number))?;
    }
    Ok(())
}
