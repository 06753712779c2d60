//! Why an edit is refused.

ghost use Rattle.std.specs.Prelude.{◌≡◌};

use std::alloc::AllocError;
use wt_checks::{NodeNumber, TreeRefusal};
use wt_content::ContentWhy;
use wt_selser::EditRefusal as SpliceRefusal;
use wt_span::NoMemory;
use wt_transclusion::ExpandRefusal;

/// Why an edit is refused, in the order in which the causes are looked for. Numbers are those of nodes (`mwN`),
/// but for `Unspelled`.
#[derive(Drop)]
pub enum EditRefusal {
    /// What the comparison of the two trees finds.
    Check(TreeRefusal),
    /// The inside of this marked node can't be written.
    BadContent(NodeNumber, ContentWhy),
    /// This marked node can't be read by itself.
    Tangled(NodeNumber),
    /// The new page is longer than a page may be.
    NewPageTooLong,
    /// The expansion of the new page is refused, for this cause. It is neither `FolderFault` nor `NoMemory`.
    NewExpansion(ExpandRefusal),
    /// The new page doesn't show what the edited tree shows, first in this child of the body, counted from 1.
    Unspelled(usize),
    /// The folder failed, while the new page was expanded.
    FolderFault,
    /// No memory was found.
    NoMemory,
}

impl From<NoMemory> for EditRefusal {
    ghost use Rattle.wt_edit.specs.declared.refusal.EditRefusal.TheVariants as refusals;

    ghost from_gives = { λ _ e. e ≡ refusals.NoMemory };

    fn from(_refusal: NoMemory) -> EditRefusal {
        EditRefusal::NoMemory
    }
}

impl From<AllocError> for EditRefusal {
    ghost use Rattle.wt_edit.specs.declared.refusal.EditRefusal.TheVariants as refusals;

    ghost from_gives = { λ _ e. e ≡ refusals.NoMemory };

    fn from(_refusal: AllocError) -> EditRefusal {
        EditRefusal::NoMemory
    }
}

impl From<SpliceRefusal> for EditRefusal {
    ghost use Rattle.wt_edit.specs.Edits.{refusal_of_splice};

    ghost from_gives = { λ refusal e. e ≡ refusal_of_splice refusal };

    fn from(refusal: SpliceRefusal) -> EditRefusal {
        match refusal {
            SpliceRefusal::Check(check) => EditRefusal::Check(check),
            SpliceRefusal::BadContent(node, why) => EditRefusal::BadContent(node, why),
            SpliceRefusal::Tangled(node) => EditRefusal::Tangled(node),
            SpliceRefusal::NewPageTooLong => EditRefusal::NewPageTooLong,
            SpliceRefusal::NoMemory => EditRefusal::NoMemory,
        }
    }
}
