//! In which ways a call can't end.
ghost use Rattle.std.specs.Prelude.{◌≡◌, ℕ, ◌-◌, ◌^◌, ◌<◌, List, Some};
ghost use Rattle.wt_commands.specs.Calls.{Call};
ghost use Rattle.wt_commands.specs.Devices.{FolderFailed, SourceFailed};
ghost use Rattle.wt_pagetool.specs.Promises.{Ends};
ghost use Rattle.wt_commands.specs.Reports.{ErrFailed, OutFailed, WasDone, WasRefused};
ghost use Rattle.wt_commands.specs.Statuses.{code};
ghost use Rattle.wt_commands.specs.declared.status.Status.TheVariants as status;

/// A call ends in one way: it is done, it is refused, its answer isn't taken whole, or the line isn't. No two
/// of them hold of one call, where the counts of the sinks aren't at their last value, and (of an answer
/// and a refusal) `err` says what it took. The number of a refusal is neither that of an answer nor that of a
/// write fault.
pub fn calls_end_in_one_way()
    ensures refused { (c : Call) → (ended : ℕ) → WasRefused c ended → (ended ≡ code status.Done → ⊥) × (ended ≡ code status.WriteFault → ⊥) }
    ensures answer_or_line { (c : Call) → (ended : ℕ) → (taken : List ℕ) → c.err.taken_before ≡ Some taken → WasDone c → WasRefused c ended → ⊥ }
    ensures answer_or_fault { (c : Call) → c.out.faults_before < 2 ^ 64 - 1 → WasDone c → OutFailed c → ⊥ }
    ensures answer_or_no_line { (c : Call) → c.err.faults_before < 2 ^ 64 - 1 → WasDone c → ErrFailed c → ⊥ }
    ensures line_or_fault { (c : Call) → (ended : ℕ) → c.out.faults_before < 2 ^ 64 - 1 → WasRefused c ended → OutFailed c → ⊥ }
    ensures line_or_none { (c : Call) → (ended : ℕ) → c.err.faults_before < 2 ^ 64 - 1 → WasRefused c ended → ErrFailed c → ⊥ }
    ensures fault_or_no_line { (c : Call) → c.out.faults_before < 2 ^ 64 - 1 → OutFailed c → ErrFailed c → ⊥ }
{}

/// With the status of a fault of the input, or of the folder, exactly one call of one device failed: the count
/// of this device rose, by one, and no other count changed.
pub fn faults_are_of_one_device()
    ensures read { (c : Call) → (ended : ℕ) → Ends c ended → ended ≡ code status.ReadFault → SourceFailed c.input × (c.folder.faults_after ≡ c.folder.faults_before) × (c.out.faults_after ≡ c.out.faults_before) × (c.err.faults_after ≡ c.err.faults_before) }
    ensures fetch { (c : Call) → (ended : ℕ) → Ends c ended → ended ≡ code status.FolderFault → FolderFailed c.folder × (c.input.faults_after ≡ c.input.faults_before) × (c.out.faults_after ≡ c.out.faults_before) × (c.err.faults_after ≡ c.err.faults_before) }
{}
