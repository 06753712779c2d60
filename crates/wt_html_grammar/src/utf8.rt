ghost use Rattle.std.specs.Prelude.{◌≡◌};
ghost use Rattle.std.specs.Option.{option_map};
ghost use Rattle.wt_html_grammar.specs.Signs.{follow};
ghost use Rattle.wt_html_grammar.specs.FirstBytes.{follow_of};

/// What follows the first byte of a character of several bytes: the bounds of the next byte, and how
/// many more there are.
#[derive(Clone, Copy, Debug, PartialEq, Eq)]
pub struct Following {
    pub low: u8,
    pub high: u8,
    pub more: u8,
}

/// What follows this byte where it begins a character of several bytes (the Unicode Standard, table
/// of well-formed byte sequences).
pub fn follow(byte: u8) -> Option<Following>
    ensures { option_map follow_of result ≡ follow byte }
{
    let (low, high, more) = if 194 <= byte && byte <= 223 {
        (128, 191, 0)
    } else if byte == 224 {
        (160, 191, 1)
    } else if byte == 237 {
        (128, 159, 1)
    } else if 225 <= byte && byte <= 239 {
        (128, 191, 1)
    } else if byte == 240 {
        (144, 191, 2)
    } else if 241 <= byte && byte <= 243 {
        (128, 191, 2)
    } else if byte == 244 {
        (128, 143, 2)
    } else {
        return None;
    };
    Some(Following { low, high, more })
}
