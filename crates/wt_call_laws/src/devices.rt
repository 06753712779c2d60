//! What calls of devices do together.
ghost use Rattle.std.specs.Prelude.{◌≡◌, ◌↔◌, ℕ, ◌≤◌, List, [], ◌++◌, length, drop, Option, Some, None};
ghost use Rattle.std.specs.Io.KnownBytes.{IsAtEnd};
ghost use Rattle.wt_html_in.specs.Feeding.{IsFed};
ghost use Rattle.wt_html_in.specs.declared.reader.Reader.{Reader};
ghost use Rattle.wt_commands.specs.Devices.{FailedAfter, SinkUse, Took, Untouched};
ghost use Rattle.wt_commands.specs.Inputs.{FedSoFar, FedWhole, GivesAtMost};
ghost use Rattle.wt_span.specs.declared.limits.TheConstants.{HTML_BYTES};
ghost use Rattle.wt_call_laws.specs.Uses.{both, Meet};

/// A sink that took some bytes and then others took them all, in their order; one that took some and then
/// failed after a front of the others failed after a front of all. One that was left as it was took
/// nothing.
pub fn uses_of_sinks_add_up()
    ensures took { (a b : SinkUse) → (front rest : List ℕ) → Meet a b → Took a front → Took b rest → Took (both a b) (front ++ rest) }
    ensures failed { (a b : SinkUse) → (front rest : List ℕ) → Meet a b → Took a front → FailedAfter b rest → FailedAfter (both a b) (front ++ rest) }
    ensures nothing { (a : SinkUse) → (Untouched a) ↔ (Took a []) }
{}

/// What an input gave, of at most so many bytes, is a front of what it had, and it has the rest.
pub fn inputs_give_a_front()
    ensures { (most : ℕ) → (old new : List ℕ) → (GivesAtMost most (Some old) (Some new)) ↔ ((n : ℕ) × (n ≤ most) × (n ≤ length old) × (new ≡ drop n old)) }
{}

/// All that an input had was fed where it is at its end: what was fed so far is then all of it.
pub fn inputs_are_fed_whole()
    ensures all { (reader : Reader) → (all : List ℕ) → (new : Option (List ℕ)) → FedWhole reader (Some all) new → IsFed reader all × (length all ≤ HTML_BYTES) × IsAtEnd new }
    ensures so_far { (reader : Reader) → (all left : List ℕ) → (taken : ℕ) → FedSoFar reader (Some all) (Some left) taken → taken ≤ HTML_BYTES → left ≡ [] → FedWhole reader (Some all) (Some left) }
{}
