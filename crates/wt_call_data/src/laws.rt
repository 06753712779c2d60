//! What holds of the parameters of any call.

ghost use Rattle.std.specs.Prelude.{◌≡◌, List, map, ℕ};
ghost use Rattle.std.specs.Cmp.Lexicographic.{slice_cmp};
ghost use Rattle.std.specs.List.Sorted.{IsStrictlySortedBy};
ghost use Rattle.std.specs.Ordering.{nat_cmp};
ghost use Rattle.wt_span.specs.Origins.{OuterCall};
ghost use Rattle.wt_call_data.specs.CallData.{last_value, params_of, value_of, written_params};

/// The names of a call's parameters ascend in byte order, and each name has the value of the last
/// parameter of that name as they are written; no other name has one.
pub fn parameters_of_calls()
    ensures ascend { (c : OuterCall) → IsStrictlySortedBy (slice_cmp nat_cmp) (map (λ p. p.0) (params_of c)) }
    ensures last { (c : OuterCall) (name : List ℕ) → value_of name (params_of c) ≡ last_value name (written_params c) }
{}
