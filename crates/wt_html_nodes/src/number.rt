ghost use Rattle.std.specs.Prelude.{◌≡◌, Some};
ghost use Rattle.wt_html_elements.specs.Built.{pairs};
ghost use Rattle.wt_schema.specs.Attributes.{decimal_from, decimal_of, number_of, id_of};
ghost use Rattle.wt_schema.specs.Data.{id_for};

use crate::attributes::value_of;
use wt_html_elements::Attribute;
use wt_tree::Kind;

/// The number that the digits stand for, where each is one and it is below 2^32.
fn decimal(digits: &[u8]) -> Option<u32>
    ensures { result ≡ decimal_from 0 digits.now }
{
    let mut number: u32 = 0;
    for digit in digits {
        if *digit < 48 || 57 < *digit {
            return None;
        }
        let next = number as u64 * 10 + (*digit - 48) as u64;
        if 4294967295 < next {
            return None;
        }
        number = next as u32;
    }
    Some(number)
}

/// The number that these decimal digits are, where the first isn't 0 and it is below 2^32.
pub fn decimal_of(digits: &[u8]) -> Option<u32>
    ensures { result ≡ decimal_of digits.now }
{
    match digits {
        [] => None,
        [first, ..] => { if *first == 48 { None } else { decimal(digits) } }
    }
}

/// The number of a node that this text of `id` names.
fn number_of(text: &[u8]) -> Option<u32>
    ensures { result ≡ number_of text.now }
{
    match text {
        [m, w, digits @ ..] => {
            if *m == 109 && *w == 119 {
                decimal_of(digits)
            } else {
                None
            }
        }
        _ => None,
    }
}

/// The number that `id` names, 0 where it names none.
pub fn id_of(attributes: &[Attribute]) -> u32
    ensures { result ≡ id_of (pairs attributes.now) }
{
    match value_of(b"id".as_slice(), attributes) {
        None => 0,
        Some(text) => match number_of(text) {
            None => 0,
            Some(number) => number,
        },
    }
}

/// The number of a node of this kind: 0 where the kind has none.
pub fn id_for(kind: Kind, attributes: &[Attribute]) -> u32
    ensures { result ≡ id_for kind (pairs attributes.now) }
{
    if kind.is_numbered() {
        id_of(attributes)
    } else {
        0
    }
}
