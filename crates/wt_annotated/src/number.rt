//! Numbers, as they are given in preorder.

ghost use Rattle.std.specs.Prelude.{◌≡◌, ◌^◌, ◌<◌};
ghost use Rattle.wt_annotated.specs.Numbering.{next_after, number_of};

use wt_tree::Kind;

/// The number of a node of this kind, where the next one is this; 0 where it has none.
pub fn number_of(kind: Kind, next: u32) -> u32
    ensures { result ≡ number_of kind next }
{
    if kind.is_numbered() { next } else { 0 }
}

/// The next number after a node of this kind itself.
pub fn next_after(kind: Kind, next: u32) -> u32
    requires { next_after kind next < 2 ^ 32 }
    ensures { result ≡ next_after kind next }
{
    if kind.is_numbered() { next + 1 } else { next }
}
