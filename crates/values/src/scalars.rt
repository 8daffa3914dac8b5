// What stands where a number can stand, read from the bytes of a field.

ghost use Rattle.std.specs.Prelude.{◌≡◌};
ghost use Rattle.values.specs.Values.{digits_of, number_of, scalar_of, optional_of, imported_of};

use crate::fields::FromPart;
use crate::values::Imported;

// What stands in the place of a number.
#[derive(Debug, Clone, Copy, PartialEq, Eq)]
pub enum Scalar {
    Missing,
    Namespace,
    Number(u16),
}

// The number that the digits write, with no leading zero and at most 65,535.
fn digits(part: &[u8]) -> Option<u16>
    ensures { result ≡ digits_of part.now }
{
    if part.is_empty() {
        return None;
    }
    if part[0] == b'0' && part.len() > 1 {
        return None;
    }
    let mut n: u16 = 0;
    for d in part {
        if !d.is_ascii_digit() {
            return None;
        }
        n = n.checked_mul(10)?.checked_add(u16::from(*d - b'0'))?;
    }
    Some(n)
}

impl FromPart for Scalar {
    ghost written = { scalar_of };

    fn from_part(part: &[u8]) -> Option<Scalar> {
        match part {
            [b'-'] => Some(Scalar::Missing),
            [b'*'] => Some(Scalar::Namespace),
            [b'0'..=b'9', ..] => digits(part).map(Scalar::Number),
            _ => None,
        }
    }
}

// A number alone.
impl FromPart for u16 {
    ghost written = { number_of };

    fn from_part(part: &[u8]) -> Option<u16> {
        match Scalar::from_part(part)? {
            Scalar::Number(n) => Some(n),
            Scalar::Missing | Scalar::Namespace => None,
        }
    }
}

// A number, or `-` for none.
impl FromPart for Option<u16> {
    ghost written = { optional_of };

    fn from_part(part: &[u8]) -> Option<Option<u16>> {
        match Scalar::from_part(part)? {
            Scalar::Missing => Some(None),
            Scalar::Number(n) => Some(Some(n)),
            Scalar::Namespace => None,
        }
    }
}

// The number of a name, or `*` for the whole namespace.
impl FromPart for Imported {
    ghost written = { imported_of };

    fn from_part(part: &[u8]) -> Option<Imported> {
        match Scalar::from_part(part)? {
            Scalar::Namespace => Some(Imported::Namespace),
            Scalar::Number(n) => Some(Imported::Literal(n)),
            Scalar::Missing => None,
        }
    }
}
