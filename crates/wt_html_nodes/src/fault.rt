ghost use Rattle.std.specs.Prelude.{◌≡◌};

use std::alloc::AllocError;
use wt_schema::FitWhy;
use wt_span::NoMemory;

/// Why a tree of elements is no page.
///
/// - `Unfit`: the first element that doesn't fit, by its number, and the first reason for it. The
///   elements are counted from 1 in document order.
/// - `NoMemory`: no memory was found.
#[derive(Clone, Copy)]
pub enum FitFault {
    Unfit { element: u32, why: FitWhy },
    NoMemory,
}

impl From<AllocError> for FitFault {
    ghost use Rattle.wt_html_nodes.specs.declared.fault.FitFault.TheVariants as faults;

    ghost from_gives = { λ _ e. e ≡ faults.NoMemory };

    fn from(_e: AllocError) -> FitFault {
        FitFault::NoMemory
    }
}

impl From<NoMemory> for FitFault {
    ghost use Rattle.wt_html_nodes.specs.declared.fault.FitFault.TheVariants as faults;

    ghost from_gives = { λ _ e. e ≡ faults.NoMemory };

    fn from(_e: NoMemory) -> FitFault {
        FitFault::NoMemory
    }
}
