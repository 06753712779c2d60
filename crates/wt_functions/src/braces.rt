//! How many braces a call takes.

ghost use Rattle.std.specs.Prelude.{◌≡◌};
ghost use Rattle.wt_span.specs.Braces.{taken};

/// How many braces a call takes of each of two runs, the one that opens it and the one that closes
/// it: three where both have so many left, else two.
pub fn braces_taken(opening: u32, closing: u32) -> u32
    ensures { result ≡ taken opening closing }
{
    if opening >= 3 && closing >= 3 { 3 } else { 2 }
}
