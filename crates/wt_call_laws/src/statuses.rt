//! What the number with which a call ends says.
ghost use Rattle.std.specs.Prelude.{◌≡◌, ◌↔◌, ℕ, ◌≤◌};
ghost use Rattle.wt_commands.specs.Statuses.{IsAnswer, IsDoneOrRefused, IsFaultOrNoMemory, code};
ghost use Rattle.wt_commands.specs.declared.status.Status.{Status};

/// No two statuses have one number, and the numbers are those up to 8. Who knows the number knows whether
/// the call was answered, or else whether a device failed or memory ran out.
pub fn statuses_are_told_by_numbers()
    ensures apart { (s t : Status) → code s ≡ code t → s ≡ t }
    ensures all { (n : ℕ) → n ≤ 8 → (s : Status) × (code s ≡ n) }
    ensures none { (s : Status) → code s ≤ 8 }
    ensures answers { (s : Status) → (IsDoneOrRefused (code s)) ↔ (IsAnswer s) }
    ensures others { (s : Status) → (IsFaultOrNoMemory (code s)) ↔ (IsAnswer s → ⊥) }
{}
