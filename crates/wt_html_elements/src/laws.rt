ghost use Rattle.std.specs.Prelude.{◌≡◌, ℕ, List};
ghost use Rattle.wt_html_elements.specs.Kept.{IsKept};

/// How many of the bytes are held is one number: no token begins another one.
pub fn one_kept()
    ensures { (bytes : List ℕ) (m n : ℕ) → IsKept bytes m → IsKept bytes n → m ≡ n }
{}
