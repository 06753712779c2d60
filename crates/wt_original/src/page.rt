//! What is known of the page when a block's content is spelled.

ghost use Rattle.std.specs.Prelude.{◌≡◌, true, map, option_map, slice_get, string_bytes};
ghost use Rattle.wt_original.specs.Kept.{kept_with, first_with};
ghost use Rattle.wt_original.specs.Gathered.{kept_view};
ghost use Rattle.wt_original.specs.Numbers.{counts_up};

use crate::kept::Kept;

/// The kept nodes of a block, its source, and whether the nodes' numbers count up from `first`, so
/// that one is found by its number.
#[derive(Drop)]
pub struct Page<'t, 'a> {
    pub kept: Vec<Kept<'t, 'a>>,
    pub source: String,
    pub first: u32,
    pub is_counting: bool,
    pub ghost counting: { is_counting ≡ counts_up first (map kept_view kept.items) },
}

fn counts_up(kept: &[Kept<'_, '_>], first: u32) -> bool
    ensures { result ≡ counts_up first (map kept_view kept.now) }
{
    for at in 0..kept.len() {
        if kept[at].node.id as usize != first as usize + at {
            return false;
        }
    }
    true
}

fn first_number(kept: &[Kept<'_, '_>]) -> u32 {
    match kept.first() {
        Some(kept) => kept.node.id,
        None => 0,
    }
}

fn kept_at<'t, 'a>(kept: &[Kept<'t, 'a>], at: usize) -> Option<Kept<'t, 'a>>
    ensures { option_map kept_view result ≡ slice_get (map kept_view kept.now) at }
{
    kept.get(at).copied()
}

/// Where the numbers count up, a node is at its number.
fn find_by_place<'t, 'a>(kept: &[Kept<'t, 'a>], first: u32, id: u32) -> Option<Kept<'t, 'a>>
    requires { counts_up first (map kept_view kept.now) ≡ true }
    ensures { option_map kept_view result ≡ first_with id (map kept_view kept.now) }
{
    if id < first {
        return None;
    }
    kept_at(kept, (id - first) as usize)
}

fn find_first<'t, 'a>(kept: &[Kept<'t, 'a>], id: u32) -> Option<Kept<'t, 'a>>
    ensures { option_map kept_view result ≡ first_with id (map kept_view kept.now) }
{
    for entry in kept {
        if entry.node.id == id {
            return Some(*entry);
        }
    }
    None
}

impl<'t, 'a> Page<'t, 'a> {
    /// The page of these nodes and this source.
    pub fn with(kept: Vec<Kept<'t, 'a>>, source: String) -> Page<'t, 'a>
        ensures nodes { map kept_view result.kept.items ≡ map kept_view kept.entry.items }
        ensures bytes { string_bytes result.source ≡ string_bytes source }
    {
        let first = first_number(kept.as_slice());
        let is_counting = counts_up(kept.as_slice(), first);
        Page {
            kept,
            source,
            first,
            is_counting,
        }
    }

    /// The kept node with this number; 0 is no number.
    #[tactic(auto, unfolding(crate::specs::Kept::kept_with))]
    pub fn find(&self, id: u32) -> Option<Kept<'t, 'a>>
        ensures { option_map kept_view result ≡ kept_with id (map kept_view self.now.kept.items) }
    {
        if id == 0 {
            return None;
        }
        if self.is_counting {
            find_by_place(self.kept.as_slice(), self.first, id)
        } else {
            find_first(self.kept.as_slice(), id)
        }
    }
}
