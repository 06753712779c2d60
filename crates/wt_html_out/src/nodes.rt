ghost use Rattle.std.specs.Prelude.{◌≡◌, ◌<◌, ◌≤◌, ◌++◌, ◌+◌, length, Err, IfOk, OnOk};
ghost use Rattle.wt_html_out.specs.declared.refusal.LengthRefusal.TheVariants.{TooLong};
ghost use Rattle.wt_schema.specs.Escapes.{escaped};
ghost use Rattle.wt_schema.specs.Html.{html, html_of_all, groups, groups_of_all, frame_start, frame_end, html_text};
ghost use Rattle.wt_tree.specs.View.{texts_of, view, views};

use crate::bytes::{Escaping, push_escaped};
use crate::groups::push_group;
use crate::refusal::LengthRefusal;
use crate::tags::{push_end, push_section_start, push_start, push_void};
use std::alloc::Global;
use wt_devices::push;
use wt_span::{List, NoMemory, Text};
use wt_tree::{Annotated, Node, Writing};

fn push_source(out: &mut Vec<u8>, texts: &[Text<'_>]) -> Result<(), NoMemory>
    ensures { OnOk result (out.new.items ≡ out.old.items ++ escaped (texts_of texts.now)) }
{
    for text in texts {
        push_escaped(out, Escaping::Text, text.as_str().as_bytes())?;
    }
    Ok(())
}

/// Stops the writer where it has written more than so many bytes.
fn stop_past(most: usize, out: &[u8]) -> Result<(), LengthRefusal>
    ensures within { OnOk result (length out.now ≤ most) }
    ensures too_long { result ≡ Err TooLong → most < length out.now }
{
    if out.len() > most {
        return Err(LengthRefusal::TooLong);
    }
    Ok(())
}

/// A node after so many groups; it gives how many come before what follows it, which are no more
/// than the bytes that are written. The writer stops after the first child with which the text is too
/// long.
#[cycle(html)]
#[tactic(auto, using(crate::proofs::GroupCounts::longer, crate::proofs::GroupCounts::group_longer))]
fn push_html(
    alloc: Global,
    out: &mut Vec<u8>,
    most: usize,
    before: usize,
    node: &Node<'_>,
) -> Result<usize, LengthRefusal>
    requires { before ≤ length out.old.items }
    ensures text { OnOk result (out.new.items ≡ out.old.items ++ html before (view node.now)) }
    ensures groups { IfOk result (λ n. n ≡ before + groups (view node.now)) }
    ensures few { IfOk result (λ n. n ≤ length out.new.items) }
    ensures too_long { result ≡ Err TooLong → most < length (out.old.items ++ html before (view node.now)) }
{
    if node.kind.is_group() {
        let number = before + 1;
        push_group(alloc, out, number, node)?;
        return Ok(number);
    }
    match node.kind.writing() {
        Writing::AsText => push_source(out, node.own())?,
        Writing::AsVoid => push_void(alloc, out, node)?,
        Writing::RoundCharacter => {
            push_start(alloc, out, node)?;
            push_escaped(out, Escaping::Text, node.shown().as_bytes())?;
            push_end(out, node)?;
        }
        Writing::RoundChildren => {
            push_start(alloc, out, node)?;
            let behind = push_all(alloc, out, most, before, node.children.as_slice())?;
            push_end(out, node)?;
            return Ok(behind);
        }
        Writing::AsSection(number) => {
            push_section_start(out, number)?;
            let behind = push_all(alloc, out, most, before, node.children.as_slice())?;
            push_end(out, node)?;
            return Ok(behind);
        }
        Writing::Unwritten => {}
    }
    Ok(before)
}

#[cycle(html)]
fn push_all(
    alloc: Global,
    out: &mut Vec<u8>,
    most: usize,
    before: usize,
    nodes: &[Node<'_>],
) -> Result<usize, LengthRefusal>
    requires { before ≤ length out.old.items }
    ensures text { OnOk result (out.new.items ≡ out.old.items ++ html_of_all before (views nodes.now)) }
    ensures groups { IfOk result (λ n. n ≡ before + groups_of_all (views nodes.now)) }
    ensures few { IfOk result (λ n. n ≤ length out.new.items) }
    ensures too_long { result ≡ Err TooLong → most < length (out.old.items ++ html_of_all before (views nodes.now)) }
{
    let mut behind = before;
    for node in nodes {
        behind = push_html(alloc, out, most, behind, node)?;
        stop_past(most, out.as_slice())?;
    }
    Ok(behind)
}

#[tactic(auto, unfolding(wt_schema::specs::Html::frame_start))]
pub fn push_frame_start(out: &mut Vec<u8>) -> Result<(), NoMemory>
    ensures { OnOk result (out.new.items ≡ out.old.items ++ frame_start) }
{
    push(
        out,
        b"<!DOCTYPE html><html><head><meta charset=\"utf-8\"/></head>",
    )
}

#[tactic(auto, unfolding(wt_schema::specs::Html::frame_end))]
pub fn push_frame_end(out: &mut Vec<u8>) -> Result<(), NoMemory>
    ensures { OnOk result (out.new.items ≡ out.old.items ++ frame_end) }
{
    push(out, b"</html>")
}

/// The HTML of a page by its bytes, in memory, if it has no more than `most`. A page whose HTML is
/// longer takes memory for `most` bytes and for one node more that has no child, or one group.
#[tactic(auto, unfolding(wt_schema::specs::Html::html_text))]
pub fn html_bytes_within(
    alloc: Global,
    t: &Annotated<'_>,
    most: usize,
) -> Result<List<u8>, LengthRefusal>
    ensures text { IfOk result (λ bytes. bytes ≡ html_text (view t.now.body)) }
    ensures within { IfOk result (λ bytes. length bytes ≤ most) }
    ensures too_long { result ≡ Err TooLong → most < length (html_text (view t.now.body)) }
{
    let mut out = Vec::new(alloc);
    push_frame_start(&mut out)?;
    let _groups = push_html(alloc, &mut out, most, 0, t.body())?;
    push_frame_end(&mut out)?;
    stop_past(most, out.as_slice())?;
    Ok(List::from_vec(out))
}
