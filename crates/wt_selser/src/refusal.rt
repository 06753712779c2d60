//! Why an edit is refused.

ghost use Rattle.std.specs.Prelude.{◌≡◌};

use std::alloc::AllocError;
use wt_checks::{NodeNumber, TreeRefusal};
use wt_content::ContentWhy;
use wt_span::NoMemory;

/// Why an edit is refused. Numbers are those of nodes (`mwN`).
#[derive(Clone, Copy, Debug, PartialEq, Eq)]
pub enum EditRefusal {
    /// What the comparison of the two trees finds.
    Check(TreeRefusal),
    /// The inside of this marked node can't be written.
    BadContent(NodeNumber, ContentWhy),
    /// This marked node can't be read by itself.
    Tangled(NodeNumber),
    /// The new page is longer than a page may be.
    NewPageTooLong,
    /// No memory was found.
    NoMemory,
}

impl From<NoMemory> for EditRefusal {
    ghost use Rattle.wt_selser.specs.declared.refusal.EditRefusal.TheVariants as refusals;

    ghost from_gives = { λ _ e. e ≡ refusals.NoMemory };

    fn from(_refusal: NoMemory) -> EditRefusal {
        EditRefusal::NoMemory
    }
}

impl From<AllocError> for EditRefusal {
    ghost use Rattle.wt_selser.specs.declared.refusal.EditRefusal.TheVariants as refusals;

    ghost from_gives = { λ _ e. e ≡ refusals.NoMemory };

    fn from(_refusal: AllocError) -> EditRefusal {
        EditRefusal::NoMemory
    }
}
