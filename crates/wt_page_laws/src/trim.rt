//! What the name and the value of a parameter are, between white space.
ghost use Rattle.std.specs.Prelude.{◌≡◌, ◌↔◌, ℕ, List};
ghost use Rattle.wt_call_data.specs.CallData.{trimmed};
ghost use Rattle.wt_page_laws.specs.Trimming.{StandsBetweenWhite};

/// A text trimmed is what is between white space and neither begins nor ends with any, and nothing
/// else is.
pub fn trimmed_is_between_white()
    ensures { (all : List ℕ) → (text : List ℕ) → (trimmed all ≡ text) ↔ StandsBetweenWhite all text }
{}
