//! Numbers in decimal.

ghost use Rattle.std.specs.Prelude.{◌≡◌, ◌-◌, ◌^◌, pos, min, Some, None, if◌then◌else◌};
ghost use Rattle.std.specs.Option.{option_map};
ghost use Rattle.std.specs.List.{list_all};
ghost use Rattle.std.specs.Char.{is_ascii_digit};
ghost use Rattle.std.specs.Str.Parse.{digits_value};
ghost use Rattle.world_schedules.specs.Numbers.{natural_of};
ghost use Rattle.world_schedules.specs.Numbers.{negated, number_named};

/// `i64::MAX`
const MOST: u64 = 0x7fff_ffff_ffff_ffff;

/// The value of bytes that are all digits, at most `u64::MAX`.
fn value_of(digits: &[u8]) -> Option<u64>
    ensures { result ≡ (if list_all is_ascii_digit digits.now
        then Some (min (digits_value 10 digits.now) (2 ^ 64 - 1)) else None) }
{
    let mut value = 0u64;
    for digit in digits {
        if !digit.is_ascii_digit() {
            return None;
        }
        value = value
            .saturating_mul(10)
            .saturating_add(u64::from(*digit - b'0'));
    }
    Some(value)
}

/// The number that the bytes spell, at most `u64::MAX`.
pub fn natural(bytes: &[u8]) -> Option<u64>
    ensures { result ≡ option_map (λ n. min n (2 ^ 64 - 1)) (natural_of bytes.now) }
{
    match bytes {
        [] | [b'0', _, ..] => None,
        _ => value_of(bytes),
    }
}

/// The number so far below 0, where it isn't 0, or the nearest one of 64 bits.
fn below_zero(distance: u64) -> Option<i64>
    ensures { result ≡ negated (Some distance) }
{
    if distance == 0 {
        None
    } else {
        Some(-1 - (distance - 1).min(MOST) as i64)
    }
}

/// The number, or the nearest one of 64 bits.
fn nearest(value: u64) -> i64
    ensures { result ≡ pos (min value (2 ^ 63 - 1)) }
{
    value.min(MOST) as i64
}

/// The number below 0 that digits after a sign spell, or the nearest one of 64 bits.
fn negative(digits: &[u8]) -> Option<i64>
    ensures { result ≡ negated (natural_of digits.now) }
{
    match natural(digits) {
        None => None,
        Some(distance) => below_zero(distance),
    }
}

/// The number that the bytes spell, or the nearest one of 64 bits.
pub fn integer(bytes: &[u8]) -> Option<i64>
    ensures { result ≡ number_named bytes.now }
{
    match bytes {
        [b'-', digits @ ..] => negative(digits),
        _ => match natural(bytes) {
            None => None,
            Some(value) => Some(nearest(value)),
        },
    }
}
