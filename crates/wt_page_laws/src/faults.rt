//! What counts of faults say.
ghost use Rattle.std.specs.Prelude.{◌≡◌, ℕ, ◌-◌, ◌^◌, ◌<◌, ◌↔◌, List, Result};
ghost use Rattle.wt_devices.specs.Device.{Rose, ReadCause, WriteCause, FetchCause};
ghost use Rattle.wt_devices.specs.declared.device.Failed.{Failed};
ghost use Rattle.wt_devices.specs.declared.device.Fetched.{Fetched};
ghost use Rattle.wt_devices.specs.declared.device.FetchRefusal.{FetchRefusal};
ghost use Rattle.wt_page_laws.specs.Telling.{IsReadFault, IsWriteFault, IsFetchFault, Tells};

/// Who knows the count of a device before and after a call knows whether the call was a fault, as long as
/// the count isn't at its last value; there it stays.
pub fn counts_tell_faults()
    ensures read { (before now : ℕ) → (result : Result ℕ Failed) → before < 2 ^ 64 - 1 → (ReadCause before now result) ↔ (Tells (IsReadFault result) before now) }
    ensures write { (before now : ℕ) → (piece : List ℕ) → (result : Result ℕ Failed) → before < 2 ^ 64 - 1 → (WriteCause before now piece result) ↔ (Tells (IsWriteFault piece result) before now) }
    ensures fetch { (before now : ℕ) → (result : Result Fetched FetchRefusal) → before < 2 ^ 64 - 1 → (FetchCause before now result) ↔ (Tells (IsFetchFault result) before now) }
    ensures last { (now : ℕ) → (Rose (2 ^ 64 - 1) now) ↔ (now ≡ 2 ^ 64 - 1) }
{}
