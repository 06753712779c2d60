//! Which call lies too deep.
ghost use Rattle.std.specs.Prelude.{◌≡◌, ◌↔◌, ℕ, List, Ok, Err, map};
ghost use Rattle.wt_span.specs.Braces.{CallAt};
ghost use Rattle.wt_braces.specs.Found.{AnswersCalls};
ghost use Rattle.wt_braces.specs.Views.{call_of};
ghost use Rattle.wt_braces.specs.declared.call.BraceRefusal.TheVariants as refusal;
ghost use Rattle.wt_braces.specs.declared.call.Call.{Call};
ghost use Rattle.wt_page_laws.specs.Deepest.{IsFirstDeep, NoneIsDeep};

/// The place that is reported is that of the first call with too many calls round it; calls are found exactly
/// where none has.
pub fn the_first_deep_call_is_told()
    ensures refused { (cs : List CallAt) → (place : ℕ) → (AnswersCalls cs (Err (refusal.BracesTooDeep place))) ↔ (IsFirstDeep cs place) }
    ensures found { (cs : List CallAt) → (found : List Call) → (AnswersCalls cs (Ok found)) ↔ ((map call_of found ≡ cs) × NoneIsDeep cs cs) }
{}
