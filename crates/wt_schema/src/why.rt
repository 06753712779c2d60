/// Why an element doesn't fit; for one element the first in this order.
///
/// - `Root`: the root isn't `html` without attributes that matter, with an optional `head` and then
///   one `body` in it.
/// - `Element`: it is no row of the table of elements.
/// - `Place`: it may not be in its parent.
/// - `Data`: `data-parsoid` or `data-mw` is bad, or lacks what the kind needs, or there is an
///   `about` where no group may be.
/// - `Text`: text other than spaces, tabs and line breaks directly in an element that holds none.
#[derive(Clone, Copy, Debug, PartialEq, Eq)]
pub enum FitWhy {
    Root,
    Element,
    Place,
    Data,
    Text,
}
