//! Why an edit without marks is refused.

ghost use Rattle.std.specs.Prelude.{◌≡◌};

use std::alloc::AllocError;
use wt_checks::{NodeNumber, TreeRefusal};
use wt_content::ContentWhy;
use wt_span::NoMemory;

/// Why an edit without marks is refused. Numbers are those of nodes (`mwN`), but for `Unspelled`.
#[derive(Drop)]
pub enum SelserRefusal {
    /// A node of the edited tree is refused: its number is unknown or repeated, or it is in a group that was
    /// changed.
    Check(TreeRefusal),
    /// The inside of this changed node can't be written.
    BadContent(NodeNumber, ContentWhy),
    /// The new page is longer than a page may be.
    NewPageTooLong,
    /// The expansion of the new page is refused.
    NewExpansion,
    /// The new page doesn't show what the edited tree shows, first in this child of the body, counted from 1. With
    /// 0 it shows the same, but has lost a comment or an include tag; or none was found.
    Unspelled(usize),
    /// The folder failed, while a new page was expanded.
    FolderFault,
    /// No memory was found.
    NoMemory,
}

impl From<NoMemory> for SelserRefusal {
    ghost use Rattle.wt_edit.specs.declared.selser_refusal.SelserRefusal.TheVariants as refusals;

    ghost from_gives = { λ _ r. r ≡ refusals.NoMemory };

    fn from(_refusal: NoMemory) -> SelserRefusal {
        SelserRefusal::NoMemory
    }
}

impl From<AllocError> for SelserRefusal {
    ghost use Rattle.wt_edit.specs.declared.selser_refusal.SelserRefusal.TheVariants as refusals;

    ghost from_gives = { λ _ r. r ≡ refusals.NoMemory };

    fn from(_refusal: AllocError) -> SelserRefusal {
        SelserRefusal::NoMemory
    }
}
