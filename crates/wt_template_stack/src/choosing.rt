//! A function by text of which the parts are told one after the other.
ghost use Rattle.std.specs.Prelude.{◌≡◌, ◌<◌, ◌^◌, Some, true, IfOk, OnOk, is_some, length, not, slice_get};
ghost use Rattle.wt_functions.specs.Choice.{asked, is_tell};
ghost use Rattle.wt_span.specs.Items.{items};
ghost use Rattle.wt_expand.specs.Texts.{name_text};
ghost use Rattle.wt_template_stack.specs.ToldParts.{have_equals, name_end, told_end, given_start, with_text};

use crate::reader::Reader;
use std::alloc::Global;
use wt_braces::PartAt;
use wt_functions::Chooser;
use wt_span::{Function, List, NoMemory, Piece, rest_of};
use wt_transclusion::{Braces, name_text};

/// A function by text of which a part is being told.
#[derive(Drop)]
pub struct Choosing<'a> {
    pub call: Braces<'a>,
    /// Whether the call is at the start of a line.
    pub at_start: bool,
    pub function: Function,
    pub chooser: Chooser,
    /// The text where the call begins: a part may be given that was told before.
    pub begun: Reader<'a>,
    /// The part that is being told.
    pub number: usize,
    /// What the expansion had cost when this part began.
    pub spent: u64,
    pub ghost asks: { is_tell (asked chooser) ≡ true },
    pub ghost parts: { length chooser.equals < length call.parts.now },
}

impl<'a> Choosing<'a> {
    ghost use Rattle.wt_template_stack.specs.Choosings.{IsStarted};

    /// A call of which nothing is told. The reader is where it begins.
    pub fn start(
        alloc: Global,
        call: Braces<'a>,
        function: Function,
        begun: Reader<'a>,
        spent: u64,
    ) -> Result<Choosing<'a>, NoMemory>
        ensures { IfOk result (λ k. IsStarted k call.entry function begun.entry) }
    {
        let equals = have_equals(alloc, call.parts)?;
        Ok(Choosing {
            call,
            at_start: begun.cursor.at_start,
            function,
            chooser: Chooser::start(alloc, function, &equals)?,
            begun,
            number: 0,
            spent,
        })
    }
}

/// Which parts after the target have a `=`.
fn have_equals(alloc: Global, parts: &[PartAt]) -> Result<List<bool>, NoMemory>
    ensures { IfOk result (λ equals. equals ≡ have_equals parts.now) }
{
    let mut equals = List::new(alloc);
    if parts.is_empty() {
        return Ok(equals);
    }
    let later = rest_of(parts, 1);
    for part in later {
        equals.push(part.equals.is_some())?;
    }
    Ok(equals)
}

/// Tells the text of the part that was asked for, which gave these pieces.
pub fn tell(alloc: Global, chooser: &mut Chooser, out: &[Piece<'_>]) -> Result<(), NoMemory>
    requires { is_tell (asked chooser.old) ≡ true }
    ensures { OnOk result (chooser.new ≡ with_text chooser.old (name_text (items out.now))) }
{
    let text = name_text(alloc, out)?;
    chooser.told(text.as_str())
}

/// The part of a number.
pub fn part_at(call: Braces<'_>, number: usize) -> PartAt
    requires { number < length call.parts.now }
    ensures { slice_get call.entry.parts.now number ≡ Some result }
{
    call.parts[number]
}

/// Where a part ends its name by its `=`, if names count.
fn name_end(function: Function, part: PartAt) -> Option<u32>
    ensures { result ≡ name_end function part.equals }
{
    match function {
        Function::If | Function::IfEq => None,
        Function::Switch => part.equals,
    }
}

/// Whether a part has no name, so that what is told of it is what is given.
pub fn is_whole(function: Function, part: PartAt) -> bool
    ensures { result ≡ not (is_some (name_end function part.equals)) }
{
    name_end(function, part).is_none()
}

/// Where what is told of a part ends: with its name, or with all of it.
pub fn told_end(function: Function, part: PartAt) -> u32
    ensures { result ≡ told_end function part }
{
    match name_end(function, part) {
        Some(equals) => equals,
        None => part.at.end,
    }
}

/// Where what is given of a part begins: after its name, or with all of it.
pub fn given_start(function: Function, part: PartAt) -> u32
    ensures { given_start function part < 2 ^ 32 → result ≡ given_start function part }
{
    match name_end(function, part) {
        Some(equals) => equals.saturating_add(1),
        None => part.at.start,
    }
}
