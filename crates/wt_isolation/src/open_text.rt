//! Texts that could go on after their end: one that holds the beginning of a tag or of a link.

ghost use Rattle.std.specs.Prelude.{◌≡◌, ◌||◌, ◌∷◌, [], List, ℕ, Bool, IfOk};
ghost use Rattle.wt_tree.specs.View.{view, views};
ghost use Rattle.wt_isolation.specs.OpenTexts.{begins_bracket, begins_open, ends_with_bracket, has_open_text, holds_open, in_style, is_open_before, is_text, open_text_at};

use crate::scheme::scheme_len;
use std::alloc::Global;
use wt_span::NoMemory;
use wt_tree::{InlineForm, Node};

fn begins_bracket(text: &[u8]) -> bool
    ensures { result ≡ begins_bracket text.now }
{
    match text.split_first() {
        Some((byte, _)) => *byte == b'[',
        None => false,
    }
}

/// Whether `<`, `[[`, or `[` and the beginning of a URL are first.
fn begins_open(byte: u8, rest: &[u8]) -> bool
    ensures { result ≡ begins_open (byte ∷ rest.now) }
{
    byte == b'<' || byte == b'[' && (begins_bracket(rest) || 0 < scheme_len(rest))
}

/// Whether such bytes are somewhere in a text.
fn holds_open(text: &[u8]) -> bool
    ensures { result ≡ holds_open text.now }
{
    let mut rest = text;
    while let Some((byte, after)) = rest.split_first() {
        if begins_open(*byte, after) {
            return true;
        }
        rest = after;
    }
    false
}

fn ends_with_bracket(text: &[u8]) -> bool
    ensures { result ≡ ends_with_bracket text.now }
{
    match text.last() {
        Some(byte) => *byte == b'[',
        None => false,
    }
}

/// Whether a text that ends before a node of this kind could go on after its end.
fn is_open_before(inline: InlineForm, text: &[u8]) -> bool
    ensures { result ≡ is_open_before inline text.now }
{
    match inline {
        InlineForm::ExternalLink => holds_open(text) || ends_with_bracket(text),
        InlineForm::Nothing
        | InlineForm::Characters
        | InlineForm::Bold
        | InlineForm::Italic
        | InlineForm::Shown => holds_open(text),
        InlineForm::PageLink | InlineForm::Tag | InlineForm::Break | InlineForm::AsItStood =>
            holds_open(text),
    }
}

fn is_text(inline: InlineForm) -> bool
    ensures { result ≡ is_text inline }
{
    match inline {
        InlineForm::Characters => true,
        InlineForm::Nothing
        | InlineForm::Bold
        | InlineForm::Italic
        | InlineForm::Shown
        | InlineForm::PageLink => false,
        InlineForm::ExternalLink | InlineForm::Tag | InlineForm::Break | InlineForm::AsItStood =>
            false,
    }
}

/// Whether there is such a text in a bold or an italic node, where it holds these.
#[cycle(texts)]
fn in_style(alloc: Global, inline: InlineForm, held: &[Node<'_>]) -> Result<bool, NoMemory>
    ensures { IfOk result (λ b. b ≡ in_style inline (has_open_text [] (views held.now))) }
{
    match inline {
        InlineForm::Bold | InlineForm::Italic => has_open_text(alloc, held),
        InlineForm::Nothing | InlineForm::Characters | InlineForm::Shown | InlineForm::PageLink =>
            Ok(false),
        InlineForm::ExternalLink | InlineForm::Tag | InlineForm::Break | InlineForm::AsItStood =>
            Ok(false),
    }
}

/// Ends the text before a node: whether it could go on after its end, or one in the node could.
#[cycle(texts)]
fn ends_open(
    alloc: Global,
    text: &mut Vec<u8>,
    inline: InlineForm,
    held: &[Node<'_>],
) -> Result<bool, NoMemory>
    ensures open { IfOk result (λ b. b ≡ (is_open_before inline text.old.items || in_style inline (has_open_text [] (views held.now)))) }
    ensures ended { IfOk result (λ b. text.new.items ≡ []) }
{
    let open = is_open_before(inline, text.as_slice());
    *text = Vec::new(alloc);
    if open {
        return Ok(true);
    }
    in_style(alloc, inline, held)
}

/// Reads one more node after a text: whether the text ends there and could go on, or one in the node could.
#[cycle(texts)]
fn follow(alloc: Global, text: &mut Vec<u8>, node: &Node<'_>) -> Result<bool, NoMemory>
    ensures { IfOk result (λ b. (rest : List ℕ → Bool) → open_text_at text.old.items (view node.now) rest ≡ (b || rest text.new.items)) }
{
    let inline = node.kind.edit_shape().inline;
    if is_text(inline) {
        text.extend_from_slice(node.shown().as_bytes())?;
        return Ok(false);
    }
    ends_open(alloc, text, inline, node.children.as_slice())
}

/// Whether a text directly among these nodes, or in their bold and italic nodes, could go on after its end.
#[cycle(texts)]
pub fn has_open_text(alloc: Global, nodes: &[Node<'_>]) -> Result<bool, NoMemory>
    ensures { IfOk result (λ b. b ≡ has_open_text [] (views nodes.now)) }
{
    let mut text: Vec<u8> = Vec::new(alloc);
    for node in nodes {
        let open = follow(alloc, &mut text, node)?;
        if open {
            return Ok(true);
        }
    }
    Ok(holds_open(text.as_slice()))
}
