//! How often each text is among some.

ghost use Rattle.std.specs.Prelude.{◌≡◌, ◌+◌, ◌<◌, ◌^◌, [], ◌∷◌, ℕ, List, map, true, false, IfOk, OnOk};
ghost use Rattle.wt_visible.specs.Tally.{counted, times, trimmed};

use std::alloc::Global;
use std::collections::BTreeMap;
use wt_span::{NoMemory, Str};

/// A text without the white space at its ends.
pub fn trimmed(text: &Str) -> &[u8]
    ensures { result.now ≡ trimmed text.now }
{
    text.as_str().as_bytes().trim_ascii()
}

/// How often each of some texts was counted.
#[derive(Drop)]
pub struct Tally<'s> {
    counts: BTreeMap<&'s [u8], usize>,
}

impl<'s> Tally<'s> {
    /// Of no texts.
    fn new(alloc: Global) -> Tally<'s>
        ensures { (text : List ℕ) → counted result text ≡ 0 }
    {
        Tally {
            counts: BTreeMap::new(alloc),
        }
    }

    /// How often a text was counted.
    fn count(&self, text: &[u8]) -> usize
        ensures { result ≡ counted self.now text.now }
    {
        match self.counts.get(text) {
            Some(count) => *count,
            None => 0,
        }
    }

    /// Counts a text once more.
    fn add(&mut self, text: &'s [u8]) -> Result<(), NoMemory>
        requires { counted self.old text.now + 1 < 2 ^ 64 }
        ensures { OnOk result ((other : List ℕ)
            → counted self.new other ≡ counted self.old other + times other (text.now ∷ [])) }
    {
        let count = self.count(text);
        self.counts.insert(text, count + 1)?;
        Ok(())
    }

    /// Counts a text once less; gives whether it was counted.
    pub fn take(&mut self, text: &'s [u8]) -> Result<bool, NoMemory>
        ensures taken { IfOk result (λ taken. taken ≡ true → (other : List ℕ)
            → counted self.old other ≡ counted self.new other + times other (text.now ∷ [])) }
        ensures none { IfOk result (λ taken. taken ≡ false → counted self.old text.now ≡ 0) }
    {
        let count = self.count(text);
        if count == 0 {
            return Ok(false);
        }
        self.counts.insert(text, count - 1)?;
        Ok(true)
    }

    /// Of these texts, trimmed.
    pub fn of(alloc: Global, texts: &'s [Str]) -> Result<Tally<'s>, NoMemory>
        ensures { IfOk result (λ tally. (text : List ℕ) → counted tally text ≡ times text (map trimmed texts.now)) }
    {
        let mut tally = Tally::new(alloc);
        for text in texts {
            tally.add(trimmed(text))?;
        }
        Ok(tally)
    }
}
