ghost use Rattle.std.specs.Prelude.{◌≡◌, ◌++◌, ◌∷◌, [], map, OnOk, IfOk, false};
ghost use Rattle.wt_tree.specs.Stream.{byte, signs, signs_of_all};
ghost use Rattle.wt_tree.specs.View.{view, views};
ghost use Rattle.wt_checks.specs.Elements.{written_for, signs_in};
ghost use Rattle.wt_checks.specs.Tokens.{written_sign, written_signs, span_if_none, all_bare_signs, close_span, open_span, text_in_span, open_after, top_signs, all_top_signs, top_open, all_top_open};

use std::alloc::Global;
use wt_span::NoMemory;
use wt_tree::{Node, Showing};

/// A part of the elements that are written for a group of the page: a byte of a text, an element that
/// opens, which is written without its data, the `span` round a text, or an element that closes.
#[derive(Clone, Copy)]
pub enum Written<'t, 'a> {
    Byte(u8),
    Element(&'t Node<'a>),
    Span,
    Close,
}

fn push_part<'t, 'a>(out: &mut Vec<Written<'t, 'a>>, part: Written<'t, 'a>) -> Result<(), NoMemory>
    ensures { OnOk result (written_signs out.new.items ≡ written_signs out.old.items ++ written_sign part.entry ∷ []) }
{
    out.push(part)?;
    Ok(())
}

fn push_text(out: &mut Vec<Written<'_, '_>>, text: &str) -> Result<(), NoMemory>
    ensures { OnOk result (written_signs out.new.items ≡ written_signs out.old.items ++ map byte text.now) }
{
    for byte in text.as_bytes() {
        out.push(Written::Byte(*byte))?;
    }
    Ok(())
}

#[cycle(inner)]
fn push_inner<'t, 'a>(out: &mut Vec<Written<'t, 'a>>, node: &'t Node<'a>) -> Result<(), NoMemory>
    ensures { OnOk result (written_signs out.new.items ≡ written_signs out.old.items ++ all_bare_signs (signs (view node.now))) }
{
    match node.kind.showing() {
        Showing::Characters => {
            push_text(out, node.shown())?;
            Ok(())
        }
        Showing::Inside => {
            push_all_inner(out, node.children.as_slice())?;
            Ok(())
        }
        Showing::Nothing => Ok(()),
        Showing::Element => {
            push_part(out, Written::Element(node))?;
            push_all_inner(out, node.children.as_slice())?;
            push_part(out, Written::Close)?;
            Ok(())
        }
    }
}

#[cycle(inner)]
fn push_all_inner<'t, 'a>(
    out: &mut Vec<Written<'t, 'a>>,
    nodes: &'t [Node<'a>],
) -> Result<(), NoMemory>
    ensures { OnOk result (written_signs out.new.items ≡ written_signs out.old.items ++ all_bare_signs (signs_of_all (views nodes.now))) }
{
    for node in nodes {
        push_inner(out, node)?;
    }
    Ok(())
}

fn push_close(out: &mut Vec<Written<'_, '_>>, in_span: bool) -> Result<(), NoMemory>
    ensures { OnOk result (written_signs out.new.items ≡ written_signs out.old.items ++ close_span in_span) }
{
    if in_span {
        out.push(Written::Close)?;
    }
    Ok(())
}

fn push_open(out: &mut Vec<Written<'_, '_>>, in_span: bool) -> Result<(), NoMemory>
    ensures { OnOk result (written_signs out.new.items ≡ written_signs out.old.items ++ open_span in_span) }
{
    if !in_span {
        out.push(Written::Span)?;
    }
    Ok(())
}

/// A text at the top; it gives whether a `span` is open after it.
fn push_top_text(
    out: &mut Vec<Written<'_, '_>>,
    in_span: bool,
    text: &str,
) -> Result<bool, NoMemory>
    ensures signs { OnOk result (written_signs out.new.items ≡ written_signs out.old.items ++ text_in_span in_span text.now) }
    ensures span { IfOk result (λ o. o ≡ open_after in_span text.now) }
{
    if text.is_empty() {
        return Ok(in_span);
    }
    push_open(out, in_span)?;
    push_text(out, text)?;
    Ok(true)
}

#[cycle(top)]
fn push_top<'t, 'a>(
    out: &mut Vec<Written<'t, 'a>>,
    in_span: bool,
    node: &'t Node<'a>,
) -> Result<bool, NoMemory>
    ensures signs { OnOk result (written_signs out.new.items ≡ written_signs out.old.items ++ top_signs in_span (view node.now)) }
    ensures span { IfOk result (λ o. o ≡ top_open in_span (view node.now)) }
{
    match node.kind.showing() {
        Showing::Characters => {
            let within = push_top_text(out, in_span, node.shown())?;
            Ok(within)
        }
        Showing::Inside => {
            let within = push_all_top(out, in_span, node.children.as_slice())?;
            Ok(within)
        }
        Showing::Nothing => Ok(in_span),
        Showing::Element => {
            push_close(out, in_span)?;
            push_inner(out, node)?;
            Ok(false)
        }
    }
}

#[cycle(top)]
fn push_all_top<'t, 'a>(
    out: &mut Vec<Written<'t, 'a>>,
    in_span: bool,
    nodes: &'t [Node<'a>],
) -> Result<bool, NoMemory>
    ensures signs { OnOk result (written_signs out.new.items ≡ written_signs out.old.items ++ all_top_signs in_span (views nodes.now)) }
    ensures span { IfOk result (λ o. o ≡ all_top_open in_span (views nodes.now)) }
{
    let mut within = in_span;
    for node in nodes {
        within = push_top(out, within, node)?;
    }
    Ok(within)
}

fn push_empty_span(out: &mut Vec<Written<'_, '_>>) -> Result<(), NoMemory>
    ensures { OnOk result (written_signs out.new.items ≡ span_if_none (written_signs out.old.items)) }
{
    if out.is_empty() {
        push_part(out, Written::Span)?;
        push_part(out, Written::Close)?;
    }
    Ok(())
}

/// What is written for a group of the page that holds these nodes.
pub fn elements_written<'t, 'a>(
    alloc: Global,
    nodes: &'t [Node<'a>],
) -> Result<Vec<Written<'t, 'a>>, NoMemory>
    ensures { IfOk result (λ ws. written_signs ws.items ≡ signs_in (written_for (views nodes.now))) }
{
    let mut out = Vec::new(alloc);
    let within = push_all_top(&mut out, false, nodes)?;
    push_close(&mut out, within)?;
    push_empty_span(&mut out)?;
    Ok(out)
}
