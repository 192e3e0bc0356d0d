ghost use Rattle.std.specs.Prelude.{◌≡◌, option_map};
ghost use Rattle.std.specs.List.{list_all};
ghost use Rattle.segment_shape.specs.Values.{is_id_byte, is_id, id_text};

use arrayvec::ArrayString;

/// The name of a slave in a segment file: 1 to 16 ASCII letters, digits, `_` and `-`.
pub type Id = ArrayString<16>;

fn is_id_byte(byte: u8) -> bool
    ensures { result ≡ is_id_byte byte }
{
    byte.is_ascii_alphanumeric() || byte == b'_' || byte == b'-'
}

fn are_id_bytes(bytes: &[u8]) -> bool
    ensures { result ≡ list_all is_id_byte bytes.now }
{
    bytes.iter().all(|byte| is_id_byte(*byte))
}

fn is_id(text: &str) -> bool
    ensures { result ≡ is_id text.now }
{
    1 <= text.len() && text.len() <= 16 && are_id_bytes(text.as_bytes())
}

/// The id that a text is, if it is one.
pub(crate) fn id_text(text: &str) -> Option<Id>
    ensures { option_map (λ id. id.bytes) result ≡ id_text text.now }
{
    if !is_id(text) {
        return None;
    }
    let mut id = Id::new();
    id.push_str(text);
    Some(id)
}
