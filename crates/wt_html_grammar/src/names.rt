/// The escapes that have a name: `&amp; &lt; &gt; &quot; &apos; &nbsp;`.
#[derive(Clone, Copy, Debug, PartialEq, Eq)]
pub enum EscapeName {
    Amp,
    Lt,
    Gt,
    Quot,
    Apos,
    Nbsp,
}

/// How the number of an escape is written: `&#38;` or `&#x26;`.
#[derive(Clone, Copy, Debug, PartialEq, Eq)]
pub enum Radix {
    Decimal,
    Hexadecimal,
}
