/// How an element is among its siblings.
///
/// - `Alone`: it has no `about`, and is a node by itself.
/// - `First`: it has `about` and `data-mw`, and begins a group.
/// - `Further`: it has the `about` of the group that is open before it, white space apart, and no
///   `data-mw`: it is one more element of this group.
/// - `Astray`: it has an `about` and is none of these.
#[derive(Clone, Copy, Debug, PartialEq, Eq)]
pub enum Standing {
    Alone,
    First,
    Further,
    Astray,
}
