/// How far one has come along the edited children of a node: where the last child that stayed in its turn ends in
/// the page, and its number; and whether another child has come since.
#[derive(Clone, Copy, Debug, PartialEq, Eq)]
pub struct Reached {
    pub end: usize,
    pub number: u32,
    pub came: bool,
}
