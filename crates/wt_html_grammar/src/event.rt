/// What a byte says about the tree: nothing; a byte of a name (the first of one begins it); a byte of
/// a value or of a text, or the character that an escape there stands for; that a value begins or
/// ends, that an element is opened or closed, or that a void element is whole.
#[derive(Clone, Copy, Debug, PartialEq, Eq)]
pub enum Event {
    Quiet,
    NameBegin(u8),
    Name(u8),
    KeyBegin(u8),
    Key(u8),
    ValueBegin,
    ValueByte(u8),
    ValueChar(char),
    ValueEnd,
    Opened,
    Void,
    Byte(u8),
    Char(char),
    Closed,
}
