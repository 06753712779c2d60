//! What the head of an element decides.
ghost use Rattle.std.specs.Prelude.{◌≡◌, ℕ, Bool, List, Option, Result, Ok, Err, Some, None, []};
ghost use Rattle.wt_datamw.specs.declared.sync.Sync.{Sync};
ghost use Rattle.wt_tree.specs.Tree.{Tree};
ghost use Rattle.wt_tree.specs.View.{attrs_of};
ghost use Rattle.wt_tree.specs.declared.kind.Kind.{Kind};
ghost use Rattle.wt_schema.specs.declared.why.FitWhy.{FitWhy};
ghost use Rattle.wt_schema.specs.Fit.{Misfit};
ghost use Rattle.wt_schema.specs.Groups.{Piece};
ghost use Rattle.wt_html_nodes.specs.Heads.{BodyFits, RowFits, label_of_head};
ghost use Rattle.wt_html_nodes.specs.declared.fault.FitFault.TheVariants as faults;
ghost use Rattle.wt_html_nodes.specs.declared.head.Head.{Head};
ghost use Rattle.wt_html_nodes.specs.declared.head.Headed.{Headed};

/// The label of a head has the head's kind, number, attributes, mark and data, and its ranges and delimiters
/// from `data-parsoid`, or none where that is absent.
pub fn heads_have_their_fields()
    ensures kind { (h : Head) → (label_of_head h).kind ≡ h.kind }
    ensures id { (h : Head) → (label_of_head h).id ≡ h.id }
    ensures attributes { (h : Head) → (label_of_head h).attrs ≡ attrs_of h.attrs }
    ensures mark { (h : Head) → (label_of_head h).mark ≡ h.mark }
    ensures data { (h : Head) → (label_of_head h).mw ≡ h.mw }
    ensures sourced { (h : Head) → (s : Sync) → h.sync ≡ Some s → ((label_of_head h).ranges ≡ Some s.dsr) × ((label_of_head h).opening ≡ s.opening) × ((label_of_head h).closing ≡ s.closing) }
    ensures unsourced { (h : Head) → h.sync ≡ None → ((label_of_head h).ranges ≡ None) × ((label_of_head h).opening ≡ []) × ((label_of_head h).closing ≡ []) }
{}

/// An element has one head at most, by its label, and none where it is refused.
pub fn heads_are_one()
    ensures body { (told : Result (List Piece) Misfit → Result Tree Misfit) → (g h : Head) → BodyFits told (Ok g) → BodyFits told (Ok h) → label_of_head g ≡ label_of_head h }
    ensures row { (inside : Bool) → (told : Option (List ℕ) → (Kind → Result (List Piece) Misfit) → Result (Option Piece) Misfit) → (g h : Headed) → RowFits inside told (Ok g) → RowFits inside told (Ok h) → label_of_head g.head ≡ label_of_head h.head }
    ensures no_body { (told : Result (List Piece) Misfit → Result Tree Misfit) → (h : Head) → (n : ℕ) → (w : FitWhy) → BodyFits told (Ok h) → BodyFits told (Err (faults.Unfit n w)) → ⊥ }
    ensures no_row { (inside : Bool) → (told : Option (List ℕ) → (Kind → Result (List Piece) Misfit) → Result (Option Piece) Misfit) → (h : Headed) → (n : ℕ) → (w : FitWhy) → RowFits inside told (Ok h) → RowFits inside told (Err (faults.Unfit n w)) → ⊥ }
{}

/// Where an element has a head, what doesn't fit in what it holds is what doesn't fit of it.
pub fn misfits_pass_heads()
    ensures body { (told : Result (List Piece) Misfit → Result Tree Misfit) → (h : Head) → (e : Misfit) → BodyFits told (Ok h) → told (Err e) ≡ Err e }
    ensures row { (inside : Bool) → (told : Option (List ℕ) → (Kind → Result (List Piece) Misfit) → Result (Option Piece) Misfit) → (h : Headed) → (group : Option (List ℕ)) → (e : Misfit) → RowFits inside told (Ok h) → told group (λ k. Err e) ≡ Err e }
{}
