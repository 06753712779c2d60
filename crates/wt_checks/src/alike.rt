ghost use Rattle.std.specs.Prelude.{◌≡◌, ◌==◌, ◌&&◌};
ghost use Rattle.std.specs.Option.{option_copied};
ghost use Rattle.std.specs.Str.{bytes_eq};
ghost use Rattle.wt_tree.specs.Kinds.{order};
ghost use Rattle.wt_tree.specs.View.{attrs_of};
ghost use Rattle.wt_checks.specs.Alike.{same_kind, same_attrs, same_data};

use wt_tree::{Attr, DataMw, Kind};

#[tactic(auto, unfolding(crate::specs::Alike::same_kind))]
pub fn same_kind(a: Kind, b: Kind) -> bool
    ensures { result ≡ same_kind a b }
{
    a == b
}

fn same_attr(a: &Attr, b: &Attr) -> bool
    ensures { result ≡ (order a.now.name == order b.now.name) && bytes_eq a.now.value b.now.value }
{
    a.name.order() == b.name.order() && a.value.as_str() == b.value.as_str()
}

pub fn same_attrs(a: &[Attr], b: &[Attr]) -> bool
    ensures { result ≡ same_attrs (attrs_of a.now) (attrs_of b.now) }
{
    if a.len() != b.len() {
        return false;
    }
    for at in 0..a.len() {
        if !same_attr(&a[at], &b[at]) {
            return false;
        }
    }
    true
}

#[tactic(auto, unfolding(crate::specs::Alike::same_data))]
pub fn same_data(a: Option<&DataMw>, b: Option<&DataMw>) -> bool
    ensures { result ≡ same_data (option_copied a.entry) (option_copied b.entry) }
{
    a == b
}
