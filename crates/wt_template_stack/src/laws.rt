//! Laws about the steps of a text.
ghost use Rattle.std.specs.Prelude.{◌≡◌, ◌≤◌, ◌+◌, ◌*◌, ◌^◌, ℕ, List, length};
ghost use Rattle.wt_template_stack.specs.Measures.{HaveFewerEach, most_steps, steps_left};
ghost use Rattle.wt_template_stack.specs.declared.run.TextRun.{TextRun as Run};

/// A text whose steps leave fewer and fewer steps takes at most as many as are left of it when it
/// begins. How many that are is a number of its bytes: less than three for each choice of which of
/// them are read once more.
pub fn steps_end()
    ensures count { (first : Run) (later : List Run) → HaveFewerEach first later → length later ≤ steps_left first }
    ensures number { (n : ℕ) → most_steps n + 3 ≡ 3 * 2 ^ n }
{}
