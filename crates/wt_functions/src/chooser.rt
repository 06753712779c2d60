//! Which parts of a function call are told, and which one is given, one question after the other.
ghost use Rattle.std.specs.Prelude.{◌≡◌, ℕ, ◌+◌, ◌<◌, ◌≤◌, ◌++◌, ◌∷◌, [], Bool, true, false, Some, IfOk, OnOk, OnErr, length, drop, position, slice_index_or};
ghost use Rattle.std.specs.Option.{option_map};
ghost use Rattle.wt_functions.specs.Choice.{Telling, text_at, if_there, first_from, equal_part, value_from, last_whole, is_default, last_default, chosen, told_count, asked, is_tell};

use std::alloc::Global;
use std::marker::Model;
use wt_span::{Function, List, NoMemory, Str, rest_of};

/// What a chooser asks next. Parts are counted from 0, which is what comes after the function's
/// colon in the target.
#[derive(Clone, Copy, Debug, PartialEq, Eq)]
pub enum Ask {
    /// The text of this part is to be told: that of its name, where it is a part of `Switch` with a
    /// `=`, else that of the whole part.
    Tell(usize),
    /// This part is given: its value, where it is a part of `Switch` with a `=`, else the whole part.
    Give(usize),
    /// Nothing is given.
    Nothing,
}

/// A function call that is being decided. Contracts see what was told so far: the function, its
/// parts, and the texts of the parts from 0 on.
#[derive(Debug)]
pub struct Chooser {
    alloc: Global,
    function: Function,
    equals: List<bool>,
    texts: List<Str>,
    /// The first part told whose text is equal to that of part 0.
    equal: Option<usize>,
}

// One call wherever a chooser is let go, in place of one for each of its lists.
impl Drop for Chooser {
    fn drop(self) {
        let Chooser {
            alloc: _,
            function: _,
            equals: _,
            texts: _,
            equal: _,
        } = self;
    }
}

impl Model for Chooser {
    ghost use Rattle.wt_functions.specs.Choice.{Telling, equal_part};
    ghost use Rattle.std.specs.Prelude.{◌≡◌, ◌<◌, ◌≤◌, ◌+◌, length};

    ghost Value = { Telling };

    ghost view = { λ c. record { function = c.function; equals = c.equals; texts = c.texts } };

    ghost invariant = { λ c. (length c.texts ≤ length c.equals + 1) × (c.equal ≡ equal_part c.texts) };
}

/// A part that is there.
fn if_there(equals: &[bool], part: usize) -> Option<usize>
    ensures { result ≡ if_there equals.now part }
{
    if equals.len() < part {
        None
    } else {
        Some(part)
    }
}

/// The text of a part; that of a missing part is empty.
fn text_at(texts: &[Str], part: usize) -> &str
    ensures { result.now ≡ text_at texts.now part }
{
    match texts.get(part) {
        Some(text) => text.as_str(),
        None => "",
    }
}

/// The place of the first member that is true.
fn first_true(flags: &[bool]) -> Option<usize>
    ensures { result ≡ position (λ e. e) flags.now }
{
    flags.iter().position(|flag| *flag)
}

/// The first part with a `=` from a part on, that part counted.
fn value_from(equals: &[bool], part: usize) -> Option<usize>
    requires some { 0 < part }
    requires there { part ≤ length equals.now }
    ensures { result ≡ value_from equals.now part }
{
    match first_true(rest_of(equals, part - 1)) {
        Some(found) => Some(part + found),
        None => None,
    }
}

/// The last part, if there is one and it has no `=`.
#[tactic(auto, unfolding(crate::specs::Choice::last_whole))]
fn last_whole(equals: &[bool]) -> Option<usize>
    ensures { result ≡ last_whole equals.now }
{
    match equals.last() {
        Some(false) => Some(equals.len()),
        Some(true) | None => None,
    }
}

/// Whether a part has a `=` and the name `#default`.
fn is_default(equals: &[bool], texts: &[Str], part: usize) -> bool
    requires some { 0 < part }
    requires there { part ≤ length equals.now }
    ensures { result ≡ is_default equals.now texts.now part }
{
    equals[part - 1] && text_at(texts, part) == "#default"
}

/// The last part with the name `#default`.
fn last_default(equals: &[bool], texts: &[Str]) -> Option<usize>
    ensures { result ≡ last_default equals.now texts.now (length equals.now) }
{
    let mut part = equals.len();
    while part > 0 {
        if is_default(equals, texts, part) {
            return Some(part);
        }
        part -= 1;
    }
    None
}

/// The part that `Switch` gives, where this one is the first equal part.
#[tactic(auto, unfolding(crate::specs::Choice::chosen))]
fn switched(equals: &[bool], texts: &[Str], equal: Option<usize>) -> Option<usize>
    requires texts { length texts.now ≤ length equals.now + 1 }
    requires equal { equal ≡ equal_part texts.now }
    ensures { result ≡ chosen Function.Switch equals.now texts.now }
{
    let value = match equal {
        Some(part) => value_from(equals, part),
        None => None,
    };
    value
        .or_else(|| last_whole(equals))
        .or_else(|| last_default(equals, texts))
}

/// The first part whose text is equal to that of part 0, when one more text is told.
fn equal_after(texts: &[Str], equal: Option<usize>, text: &str) -> Option<usize>
    requires before { equal ≡ equal_part texts.now }
    ensures { result ≡ equal_part (texts.now ++ text.now ∷ []) }
{
    match texts {
        [first, ..] if equal.is_none() && text == first.as_str() => Some(texts.len()),
        _ => equal,
    }
}

impl Chooser {
    /// Begins a function call whose parts from 1 on have a `=` where `equals` says so.
    #[tactic(auto, unfolding(crate::specs::Choice::equal_part))]
    pub fn start(
        alloc: Global,
        function: Function,
        equals: &List<bool>,
    ) -> Result<Chooser, NoMemory>
        ensures { IfOk result (λ c. c ≡ record { function = function; equals = equals.now; texts = [] }) }
    {
        let mut copy = List::new(alloc);
        copy.extend_from_slice(equals.as_slice())?;
        Ok(Chooser {
            alloc,
            function,
            equals: copy,
            texts: List::new(alloc),
            equal: None,
        })
    }

    /// The last part that is told.
    #[tactic(auto, unfolding(crate::specs::Choice::told_count))]
    fn last_told(&self) -> usize
        ensures { 1 + result ≡ told_count self.now.function self.now.equals self.now.texts }
    {
        match self.function {
            Function::If => 0,
            Function::IfEq => self.equals.len().min(1),
            Function::Switch => match self.equal {
                Some(part) => part,
                None => self.equals.len(),
            },
        }
    }

    /// The part that is given, once all that are told were told.
    #[tactic(auto, unfolding(crate::specs::Choice::chosen))]
    fn chosen(&self) -> Option<usize>
        ensures { result ≡ chosen self.now.function self.now.equals self.now.texts }
    {
        let (equals, texts) = (self.equals.as_slice(), self.texts.as_slice());
        match self.function {
            Function::If if text_at(texts, 0).is_empty() => if_there(equals, 2),
            Function::If => if_there(equals, 1),
            Function::IfEq if text_at(texts, 0) == text_at(texts, 1) => if_there(equals, 2),
            Function::IfEq => if_there(equals, 3),
            Function::Switch => switched(equals, texts, self.equal),
        }
    }

    /// What is asked next. Parts are told in their order, from 0 on, each once; after `Give` and
    /// `Nothing` nothing more is told.
    #[tactic(auto, unfolding(crate::specs::Choice::asked))]
    pub fn ask(&self) -> Ask
        ensures { result ≡ asked self.now }
    {
        let told = self.texts.len();
        if told <= self.last_told() {
            return Ask::Tell(told);
        }
        match self.chosen() {
            Some(part) => Ask::Give(part),
            None => Ask::Nothing,
        }
    }

    /// Tells the text of the part that was asked for: what it expands to, trimmed of blanks and line
    /// breaks, its atoms by their source. After want of memory nothing was told.
    pub fn told(&mut self, text: &str) -> Result<(), NoMemory>
        requires { is_tell (asked self.old) ≡ true }
        ensures ok { OnOk result (self.new ≡ record self.old { texts = self.old.texts ++ text.now ∷ [] }) }
        ensures err { OnErr result (self.new ≡ self.old) }
    {
        let equal = equal_after(self.texts.as_slice(), self.equal, text);
        self.texts.push(Str::copy_of(self.alloc, text)?)?;
        self.equal = equal;
        Ok(())
    }
}
