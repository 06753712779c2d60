ghost use Rattle.std.specs.Prelude.{◌≡◌, ◌<◌, ◌≤◌, ◌+◌, ℕ, List, [], length, IfSome, IfOk, IfErr, OnOk};
ghost use Rattle.std.specs.Io.KnownBytes.{IsAtEnd};
ghost use Rattle.wt_schema.specs.Read.{page, read};
ghost use Rattle.wt_html_in.specs.Answers.{body_of, unsourced_of};
ghost use Rattle.wt_html_in.specs.Feeding.{IsFed, taken_of};
ghost use Rattle.wt_commands.specs.Answers.{source_answer, wikitext_answer};
ghost use Rattle.wt_commands.specs.Inputs.{FedWhole, GivesAtMost, StopsWithin};
ghost use Rattle.wt_commands.specs.Causes.{Answered, RefusesInput, IsOfHtml, IsOfInput, IsKept};

use crate::output::Output;
use crate::refusal::Refusal;
use bumpalo::Bump;
use std::alloc::Global;
use wt_devices::Source;
use wt_html_in::{Edited, Reader, unsourced};
use wt_span::{HTML_BYTES, front_of};
use wt_tree::flat;

/// How many bytes of an input are asked for at a time.
pub const PIECE: usize = 65_536;

/// Feeds the whole input, a piece that fits into `buffer` at a time. That the reader refuses a piece ends
/// nothing: an input that is too long and a fault of the source come before.
fn feed_all<S: Source>(
    input: &mut S,
    buffer: &mut [u8],
    reader: &mut Reader<'_>,
) -> Result<(), Refusal>
    requires some { 0 < length buffer.old }
    requires few { length buffer.old ≤ PIECE }
    requires fed { IsFed reader.old [] }
    requires count { taken_of reader.old ≡ 0 }
    ensures fed { OnOk result (FedWhole reader.new (S.left input.old) (S.left input.new)) }
    ensures answered { IfErr result
        (λ r. IfSome (S.left input.old) (λ bytes. RefusesInput bytes r)) }
    ensures of_input { IfErr result (IsOfInput (S.fault_count input.old) (S.fault_count input.new)) }
    ensures kept { IsKept result (S.fault_count input.old) (S.fault_count input.new) }
    ensures takes { GivesAtMost (HTML_BYTES + PIECE) (S.left input.old) (S.left input.new) }
    ensures stops { IfErr result (StopsWithin (S.left input.old) (S.left input.new)) }
{
    let mut taken = 0;
    'pieces: loop {
        match input.read(buffer) {
            Ok(0) => return Ok(()),
            Ok(count) => {
                if count > HTML_BYTES - taken {
                    return Err(Refusal::InputTooLong);
                }
                let _ = reader.feed(front_of(buffer, count));
                taken += count;
            }
            Err(_) => return Err(Refusal::ReadFault),
        }
    }
}

/// A reader that was fed the whole input.
pub fn read_all<'a, S: Source>(
    alloc: Global,
    arena: &'a Bump<Global>,
    input: &mut S,
) -> Result<Reader<'a>, Refusal>
    ensures fed { IfOk result (λ reader. FedWhole reader (S.left input.old) (S.left input.new)) }
    ensures answered { IfErr result
        (λ r. IfSome (S.left input.old) (λ bytes. RefusesInput bytes r)) }
    ensures of_input { IfErr result (IsOfInput (S.fault_count input.old) (S.fault_count input.new)) }
    ensures kept { IsKept result (S.fault_count input.old) (S.fault_count input.new) }
    ensures takes { GivesAtMost (HTML_BYTES + PIECE) (S.left input.old) (S.left input.new) }
    ensures stops { IfErr result (StopsWithin (S.left input.old) (S.left input.new)) }
{
    let mut buffer = vec![in alloc; 0u8; PIECE]?;
    let mut reader = Reader::new(alloc, arena)?;
    feed_all(input, buffer.as_mut_slice(), &mut reader)?;
    Ok(reader)
}

/// The source of a page that was read, if each of its elements says its own.
fn source_of(alloc: Global, edited: &Edited<'_>) -> Result<Output, Refusal>
    ensures answered { Answered (source_answer (page (body_of edited.now) (unsourced_of edited.now))) result }
    ensures of_html { IfErr result IsOfHtml }
{
    match unsourced(edited) {
        Some(element) => Err(Refusal::Unsourced(element)),
        None => Ok(Output::Text(flat(alloc, edited.body())?)),
    }
}

/// The source of the page that the fed bytes stand for.
fn source_of_read(alloc: Global, reader: Reader<'_>) -> Result<Output, Refusal>
    ensures answered { (bytes : List ℕ) → IsFed reader.entry bytes
        → Answered (source_answer (read bytes)) result }
    ensures of_html { IfErr result IsOfHtml }
{
    let edited = reader.finish()?;
    source_of(alloc, &edited)
}

/// The answer to `wikitext`: the source of the page that the input stands for.
pub fn wikitext_of_input<S: Source>(alloc: Global, input: &mut S) -> Result<Output, Refusal>
    ensures answered { IfSome (S.left input.old) (λ bytes. Answered (wikitext_answer bytes) result) }
    ensures of_input { IfErr result (IsOfInput (S.fault_count input.old) (S.fault_count input.new)) }
    ensures ended { OnOk result (IsAtEnd (S.left input.new)) }
    ensures kept { IsKept result (S.fault_count input.old) (S.fault_count input.new) }
    ensures takes { GivesAtMost (HTML_BYTES + PIECE) (S.left input.old) (S.left input.new) }
    ensures stops { IfErr result (StopsWithin (S.left input.old) (S.left input.new)) }
{
    let arena = Bump::new(alloc);
    let reader = read_all(alloc, &arena, input)?;
    source_of_read(alloc, reader)
}
