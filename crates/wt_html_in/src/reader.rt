ghost use Rattle.std.specs.Prelude.{◌≡◌, ℕ, ◌+◌, ◌^◌, ◌<◌, ◌≤◌, ◌++◌, List, [], length, None, Some, Ok, Err, IfSome, IfOk, OnOk, IfErr};
ghost use Rattle.wt_html_grammar.specs.Grammar.{Front};
ghost use Rattle.wt_html_elements.specs.Answer.{IsFed as IsFedElements};
ghost use Rattle.wt_html_elements.specs.Kept.{IsKept};

use crate::answer::{answer, refusal_of};
use crate::edited::Edited;
use crate::refusal::HtmlRefusal;
use bumpalo::Bump;
use std::alloc::Global;
use wt_html_elements::Reader as ElementReader;
use wt_span::NoMemory;

/// A reader of an edited page whose HTML comes in pieces. Of what it was fed it keeps no more than one
/// tag, escape or character has, and beside that the elements and texts that were read so far.
#[derive(Drop)]
pub struct Reader<'a> {
    elements: ElementReader,
    alloc: Global,
    arena: &'a Bump<Global>,
    ghost fed: { ∥ ((bytes : List ℕ) × IsFedElements elements bytes) ∥₁ },
}

impl<'a> Reader<'a> {
    ghost use Rattle.wt_html_in.specs.Answers.{Answers, RefusedFor};
    ghost use Rattle.wt_html_in.specs.Feeding.{IsFed, IsIll, IsAtLeast, taken_of, failed_of, held_of};

    #[tactic(auto, unfolding(crate::specs::Feeding::IsFed, crate::specs::Feeding::taken_of, crate::specs::Feeding::failed_of))]
    /// A reader that was fed nothing. The nodes' texts will lie in the arena.
    pub fn new(alloc: Global, arena: &'a Bump<Global>) -> Result<Reader<'a>, NoMemory>
        ensures fed { IfOk result (λ r. IsFed r []) }
        ensures count { IfOk result (λ r. taken_of r ≡ 0) }
        ensures going { IfOk result (λ r. failed_of r ≡ None) }
    {
        Ok(Reader {
            elements: ElementReader::new(alloc),
            alloc,
            arena,
        })
    }

    #[tactic(auto, unfolding(crate::specs::Feeding::IsFed, crate::specs::Feeding::taken_of, crate::specs::Feeding::failed_of))]
    /// Takes the next piece. It refuses only what begins no well-formed input; that the input ends too
    /// early, or that an element doesn't fit, is answered by `finish`. Once it has refused, it frees what it
    /// holds and refuses every further piece in the same way.
    pub fn feed(&mut self, piece: &[u8]) -> Result<(), HtmlRefusal>
        requires room { taken_of self.old + length piece.now < 2 ^ 32 }
        ensures fed { (bytes : List ℕ) → IsFed self.old bytes → IsFed self.new (bytes ++ piece.now) }
        ensures front { OnOk result ((bytes : List ℕ) → IsFed self.new bytes → Front bytes) }
        ensures refused { IfErr result (λ e. (bytes : List ℕ) → IsFed self.new bytes → RefusedFor bytes e) }
        // it begins no well-formed input, and that isn't for the end of the input
        ensures ill { IfErr result (λ e. (bytes : List ℕ) → IsFed self.new bytes → IsIll bytes e) }
        ensures place { failed_of self.old ≡ None → IfErr result (IsAtLeast (taken_of self.old)) }
        ensures count { taken_of self.new ≤ taken_of self.old + length piece.now }
        ensures going { OnOk result (failed_of self.new ≡ None) }
        ensures failed { IfErr result (λ e. failed_of self.new ≡ Some e) }
        ensures again { IfSome (failed_of self.old) (λ e. (result ≡ Err e) × (failed_of self.new ≡ Some e)) }
    {
        match self.elements.feed(self.alloc, piece) {
            Ok(()) => Ok(()),
            Err(refusal) => Err(refusal_of(refusal)),
        }
    }

    #[tactic(auto, unfolding(crate::specs::Feeding::IsFed, crate::specs::Feeding::failed_of, crate::specs::Feeding::held_of))]
    /// How many bytes of the input are held undecoded: those of a tag, a doctype, an escape or a character
    /// that isn't whole yet. A reader that has failed holds none.
    pub fn kept(&self) -> u32
        // of a start tag that isn't whole it holds no more, neither of its name nor of its attributes
        ensures held { held_of self.now ≤ result }
        ensures kept { failed_of self.now ≡ None → (bytes : List ℕ) → IsFed self.now bytes → IsKept bytes result }
        ensures failed { IfSome (failed_of self.now) (λ _. result ≡ 0) }
    {
        self.elements.kept()
    }

    #[tactic(auto, unfolding(crate::specs::Feeding::IsFed, crate::specs::Feeding::failed_of))]
    /// What all that was fed is: a page, or the reason why it is none.
    pub fn finish(self) -> Result<Edited<'a>, HtmlRefusal>
        ensures answers { (bytes : List ℕ) → IsFed self.entry bytes → Answers result bytes }
        ensures again { IfSome (failed_of self.entry) (λ e. result ≡ Err e) }
    {
        let alloc = self.alloc;
        let arena = self.arena;
        match self.elements.finish() {
            Ok(root) => answer(alloc, arena, root),
            Err(refusal) => Err(refusal_of(refusal)),
        }
    }
}
