//! Which refusal `selser` tells.
ghost use Rattle.std.specs.Prelude.{◌≡◌, ◌⊎◌, List, ℕ, Ok, Err};
ghost use Rattle.wt_selser.specs.declared.refusal.EditRefusal.{EditRefusal};
ghost use Rattle.wt_unmarked_edit.specs.Found.{IsOfNewPage, late_refusal, refusal_of_fault};
ghost use Rattle.wt_new_page.specs.declared.asked.Fault.{Fault};
ghost use Rattle.wt_edit.specs.declared.selser_refusal.SelserRefusal.{SelserRefusal};
ghost use Rattle.wt_commands.specs.Refusals.{refusal_of_edit, refusal_of_selser, status_of};
ghost use Rattle.wt_commands.specs.declared.status.Status.TheVariants as status;

/// A refusal of `selser` is that of the first new page, or what `edit` names for the marks of the difference;
/// what refuses a new page is reported as the refusal of an edit.
pub fn late_refusals_are_of_edits()
    ensures done { (new : List ℕ) → (first : Fault) → late_refusal (Ok new) first ≡ refusal_of_fault first }
    ensures either { (e : EditRefusal) → (first : Fault) → (late_refusal (Err e) first ≡ refusal_of_fault first)
        ⊎ (refusal_of_selser (late_refusal (Err e) first) ≡ refusal_of_edit e) }
    ensures status { (r : SelserRefusal) → IsOfNewPage r → status_of (refusal_of_selser r) ≡ status.EditRefused }
{}
