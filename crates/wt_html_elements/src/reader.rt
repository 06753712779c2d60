ghost use Rattle.std.specs.Prelude.{◌≡◌, ℕ, ◌+◌, ◌^◌, ◌<◌, ◌≤◌, ◌++◌, List, [], length, take, None, Some, Ok, Err, IfSome, OnOk, IfOk, IfErr};
ghost use Rattle.wt_html_grammar.specs.Grammar.{Front};
ghost use Rattle.wt_html_elements.specs.Kept.{IsKept};
ghost use Rattle.wt_html_elements.specs.Fed.{FedAs};

use crate::content::Content;
use crate::reading::Reading;
use std::alloc::Global;
use wt_html_grammar::HtmlWhy;
use wt_html_reasons::{HtmlRefusal, refusal_of};
use wt_span::rest_of;

/// A reader of HTML that comes in pieces. Each byte is decoded as it comes. `taken` is the number of
/// bytes that were fed, and `token_at` the place where the tag, doctype, escape or character began that
/// isn't whole yet. Of that tag it holds no more than these bytes.
#[derive(Drop)]
pub struct Reader {
    reading: Reading,
    taken: u32,
    token_at: u32,
    failed: Option<HtmlRefusal>,
    ghost fed: { ∥ ((bytes : List ℕ) × FedAs failed reading taken token_at bytes) ∥₁ },
}

impl Reader {
    ghost use Rattle.wt_html_elements.specs.Answer.{IsAtLeast, IsFed, Answers, RefusedFor, IsIll, answer_of, held_len};

    /// A reader that was fed nothing.
    pub fn new(alloc: Global) -> Reader
        ensures fed { IsFed result [] }
        ensures count { result.taken ≡ 0 }
        ensures going { result.failed ≡ None }
    {
        Reader {
            reading: Reading::new(alloc),
            taken: 0,
            token_at: 0,
            failed: None,
        }
    }

    /// Takes some of a piece, and gives how many bytes. Where it fails it lets go what it holds.
    fn feed_some(&mut self, alloc: Global, piece: &[u8]) -> Result<usize, HtmlRefusal>
        requires going { self.old.failed ≡ None }
        requires few { self.old.taken + length piece.now < 2 ^ 32 }
        requires some { 0 < length piece.now }
        ensures fed { IfOk result (λ n. (bytes : List ℕ) → IsFed self.old bytes → IsFed self.new (bytes ++ take n piece.now)) }
        ensures refused { IfErr result (λ _. (bytes : List ℕ) → IsFed self.old bytes → IsFed self.new (bytes ++ piece.now)) }
        ensures going { IfOk result (λ _. self.new.failed ≡ None) }
        ensures failed { IfErr result (λ e. self.new.failed ≡ Some e) }
        ensures count { IfOk result (λ n. self.new.taken ≡ self.old.taken + n) }
        ensures some { IfOk result (λ n. 0 < n) }
        ensures within { IfOk result (λ n. n ≤ length piece.now) }
        ensures most { self.new.taken ≤ self.old.taken + length piece.now }
        ensures place { IfErr result (IsAtLeast self.old.taken) }
    {
        match self.reading.take_some(alloc, piece) {
            Ok(count) => {
                self.taken += count as u32;
                if self.reading.machine.is_between() {
                    self.token_at = self.taken;
                }
                Ok(count)
            }
            Err(fault) => {
                let refusal = refusal_of(self.taken, fault);
                self.reading = Reading::new(alloc);
                self.failed = Some(refusal);
                Err(refusal)
            }
        }
    }

    fn feed_all(&mut self, alloc: Global, piece: &[u8]) -> Result<(), HtmlRefusal>
        requires going { self.old.failed ≡ None }
        requires few { self.old.taken + length piece.now < 2 ^ 32 }
        ensures fed { (bytes : List ℕ) → IsFed self.old bytes → IsFed self.new (bytes ++ piece.now) }
        ensures answer { result ≡ answer_of self.new.failed }
        ensures count { OnOk result (self.new.taken ≡ self.old.taken + length piece.now) }
        ensures most { self.new.taken ≤ self.old.taken + length piece.now }
        ensures place { IfErr result (IsAtLeast self.old.taken) }
    {
        let mut at = 0;
        while at < piece.len() {
            at += self.feed_some(alloc, rest_of(piece, at))?;
        }
        Ok(())
    }

    /// Takes the next piece. Where it refuses it has failed, and refuses so from then on; that the
    /// input ends too early is no refusal of this call, but of `finish`.
    pub fn feed(&mut self, alloc: Global, piece: &[u8]) -> Result<(), HtmlRefusal>
        requires { self.old.failed ≡ None → self.old.taken + length piece.now < 2 ^ 32 }
        ensures fed { (bytes : List ℕ) → IsFed self.old bytes → IsFed self.new (bytes ++ piece.now) }
        ensures front { OnOk result ((bytes : List ℕ) → IsFed self.new bytes → Front bytes) }
        ensures refused { IfErr result (λ e. (bytes : List ℕ) → IsFed self.new bytes → RefusedFor bytes e) }
        ensures ill { IfErr result (λ e. (bytes : List ℕ) → IsFed self.new bytes → IsIll bytes e) }
        ensures answer { result ≡ answer_of self.new.failed }
        ensures count { OnOk result (self.new.taken ≡ self.old.taken + length piece.now) }
        ensures most { self.new.taken ≤ self.old.taken + length piece.now }
        ensures place { self.old.failed ≡ None → IfErr result (IsAtLeast self.old.taken) }
        ensures again { IfSome self.old.failed (λ e. (result ≡ Err e) × (self.new.failed ≡ Some e)) }
    {
        match self.failed {
            Some(refusal) => Err(refusal),
            None => self.feed_all(alloc, piece),
        }
    }

    /// How many bytes of the input are held undecoded: those of a tag, a doctype, an escape or a character
    /// that isn't whole yet. A reader that has failed holds none.
    pub fn kept(&self) -> u32
        // of a start tag it holds no more, neither of its name nor of its attributes
        ensures held { held_len self.now ≤ result }
        ensures kept { self.now.failed ≡ None → (bytes : List ℕ) → IsFed self.now bytes → IsKept bytes result }
        ensures failed { IfSome self.now.failed (λ _. result ≡ 0) }
    {
        match self.failed {
            Some(_) => 0,
            None => self.taken.saturating_sub(self.token_at),
        }
    }

    /// What all that was fed stands for: the root element.
    pub fn finish(self) -> Result<Content, HtmlRefusal>
        ensures answers { (bytes : List ℕ) → IsFed self bytes → Answers result bytes }
        ensures going { IfOk result (λ _. self.failed ≡ None) }
        ensures again { IfSome self.failed (λ e. result ≡ Err e) }
    {
        match self.failed {
            Some(refusal) => Err(refusal),
            None => {
                let place = self.taken;
                let mut reading = self.reading;
                if reading.machine.is_accepted(&reading.builder) {
                    Ok(reading.builder.root())
                } else {
                    Err(HtmlRefusal::Html {
                        place,
                        why: HtmlWhy::End,
                    })
                }
            }
        }
    }
}
