ghost use Rattle.std.specs.Prelude.{◌≡◌, IfOk};
ghost use Rattle.wt_replies.specs.Words.{word_of, words_of};

use std::alloc::Global;
use wt_span::{List, NoMemory, Str};
use wt_utf8::read_text;

/// A word of the caller's.
#[repr(C)]
#[derive(Clone, Copy, Debug)]
pub struct Word<'a> {
    /// Its bytes, in UTF-8.
    pub bytes: &'a [u8],
}

fn word_of(alloc: Global, word: &Word) -> Result<Str, NoMemory>
    ensures { IfOk result (λ text. text ≡ word_of word.now) }
{
    match read_text(word.bytes) {
        Ok(text) => Str::copy_of(alloc, text),
        Err(_) => Ok(Str::new(alloc)),
    }
}

/// The words as texts. One that isn't UTF-8 counts as the empty word, which no command has.
pub fn words_of(alloc: Global, words: &[Word]) -> Result<List<Str>, NoMemory>
    ensures { IfOk result (λ texts. texts ≡ words_of words.now) }
{
    let mut texts = List::new(alloc);
    for word in words {
        texts.push(word_of(alloc, word)?)?;
    }
    Ok(texts)
}
