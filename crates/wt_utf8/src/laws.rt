ghost use Rattle.std.specs.Prelude.{◌≡◌, ℕ, List, IsUtf8, MatchOption};
ghost use Rattle.wt_utf8.specs.Places.{IsPlace, not_utf8_place};

/// The place that is computed is the one where the bytes stop being UTF-8: none exactly where they
/// are UTF-8.
pub fn exact_place()
    ensures { (bytes : List ℕ) → MatchOption (not_utf8_place bytes) (IsUtf8 bytes) (λ place. IsPlace bytes place) }
{}

/// Bytes stop being UTF-8 at one place only, and those that are UTF-8 at none.
pub fn one_end()
    ensures one { (bytes : List ℕ) (m n : ℕ) → IsPlace bytes m → IsPlace bytes n → m ≡ n }
    ensures none_in_text { (bytes : List ℕ) (m : ℕ) → IsUtf8 bytes → IsPlace bytes m → ⊥ }
{}
