//! One ASCII character for another.
ghost use Rattle.std.specs.Prelude.{◌≡◌, IfOk, string_bytes};
ghost use Rattle.wt_names.specs.Reading.{spaced};
ghost use Rattle.wt_names.specs.Written.{underscored};

use std::alloc::{AllocError, Global};

/// The text with a space for each `_`.
pub fn spaced(alloc: Global, text: &str) -> Result<String, AllocError>
    ensures { IfOk result (λ s. string_bytes s ≡ spaced text.now) }
{
    text.replace(alloc, '_', " ")
}

/// The text with `_` for each space.
pub fn underscored(alloc: Global, text: &str) -> Result<String, AllocError>
    ensures { IfOk result (λ s. string_bytes s ≡ underscored text.now) }
{
    text.replace(alloc, ' ', "_")
}
