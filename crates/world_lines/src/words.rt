//! Words that are names.

ghost use Rattle.std.specs.Prelude.{◌≡◌};
ghost use Rattle.std.specs.List.{list_all};
ghost use Rattle.base.specs.Bytes.{is_letter, is_name_part};
ghost use Rattle.class_rules.specs.Mangling.{is_simple_name, is_class_name};
ghost use Rattle.world_schedules.specs.Split.{parts_left};

use world_schedules::Split;

fn is_letter(byte: u8) -> bool
    ensures { result ≡ is_letter byte }
{
    matches!(byte, b'A'..=b'Z' | b'a'..=b'z')
}

/// Whether a name may go on with the byte.
fn is_name_part(byte: u8) -> bool
    ensures { result ≡ is_name_part byte }
{
    is_letter(byte) || matches!(byte, b'0'..=b'9') || byte == b'_'
}

/// Whether a name may go on with the bytes.
fn are_name_parts(bytes: &[u8]) -> bool
    ensures { result ≡ list_all is_name_part bytes.now }
{
    bytes.iter().all(|byte| is_name_part(*byte))
}

/// Whether the bytes are a letter, and then letters, digits and underscores.
pub fn is_simple_name(bytes: &[u8]) -> bool
    ensures { result ≡ is_simple_name bytes.now }
{
    match bytes {
        [] => false,
        [first, ..] => is_letter(*first) && are_name_parts(bytes),
    }
}

/// Whether the parts that are left are simple names.
fn are_simple_names(parts: &mut Split) -> bool
    ensures { result ≡ list_all is_simple_name (parts_left parts.old) }
{
    while let Some(part) = parts.next() {
        if !is_simple_name(part) {
            return false;
        }
    }
    true
}

/// Whether the bytes are simple names with slashes between them.
pub fn is_class_name(bytes: &[u8]) -> bool
    ensures { result ≡ is_class_name bytes.now }
{
    let mut parts = Split::new(bytes, b'/');
    are_simple_names(&mut parts)
}
