/// Why bytes begin no well-formed input. The place is that of the first byte that no such input has there. Where
/// several reasons hold, the first in this order is meant.
///
/// - `NotUtf8`: the byte continues no UTF-8.
/// - `End`: the input ends.
/// - `TooDeep`: the name of an element begins that is within as many others as may nest (`NESTED_ELEMENTS`).
/// - `EndTag`: in the name of an end tag, which isn't that of the element that is open.
/// - `Escape`: inside an escape.
/// - `Repeated`: after the name of an attribute that came before in the element.
/// - `Syntax`: all else.
#[derive(Clone, Copy, Debug, PartialEq, Eq)]
pub enum HtmlWhy {
    NotUtf8,
    End,
    TooDeep,
    EndTag,
    Escape,
    Repeated,
    Syntax,
}
