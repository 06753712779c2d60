//! What is written for a new or changed link or tag, round the spelling of what it holds.

ghost use Rattle.std.specs.Prelude.{◌≡◌, ◌++◌, OnOk, IfOk, Some, option_map, string_bytes};
ghost use Rattle.wt_names.specs.Tidy.{fragment_suffix, text_of};
ghost use Rattle.wt_names.specs.Written.{read_link};
ghost use Rattle.wt_tree.specs.View.{texts_of, views, attrs_of, label_of};
ghost use Rattle.wt_tree.specs.declared.node.Node.{out-Node};
ghost use Rattle.wt_tree.specs.declared.kind.AttrName.TheVariants as attr;
ghost use Rattle.wt_tree.specs.EditShapes.{edit_shape};
ghost use Rattle.wt_original.specs.Gathered.{kept_view};
ghost use Rattle.wt_link_spelling.specs.Spelling.{value_of, href_of, text_by, only_text, is_text, colon, link_text, nowiki_or, page_link, begins_with_blank, after_space, external_link, tag_pair};

use std::alloc::{AllocError, Global};
use wt_guards::{push_nowiki, push_nowiki_if};
use wt_names::{Ns, Title, full_name, title_of_href};
use wt_original::Kept;
use wt_span::{NoMemory, Str, Text};
use wt_tree::{Attr, AttrName, InlineForm, Node};

fn value_of(attrs: &[Attr]) -> &str
    ensures { result.now ≡ value_of attr.Href (attrs_of attrs.now) }
{
    for attribute in attrs {
        if attribute.name.order() == AttrName::Href.order() {
            return attribute.value.as_str();
        }
    }
    ""
}

/// The `href` of a link; empty where it has none.
pub fn href_of<'n>(node: &'n Node<'_>) -> &'n str
    ensures { result.now ≡ href_of (label_of (out-Node node.now)) }
{
    value_of(node.attrs())
}

fn text_by<'n>(node: &'n Node<'_>) -> Option<&'n str>
    ensures { option_map (λ s. s.now) result ≡ text_by (edit_shape (label_of (out-Node node.now)).kind).inline (label_of (out-Node node.now)).shown }
{
    match node.kind.edit_shape().inline {
        InlineForm::Characters => Some(node.shown()),
        InlineForm::Nothing
        | InlineForm::Bold
        | InlineForm::Italic
        | InlineForm::Shown
        | InlineForm::PageLink
        | InlineForm::ExternalLink
        | InlineForm::Tag
        | InlineForm::Break
        | InlineForm::AsItStood => None,
    }
}

/// The text that is all that is held.
#[tactic(auto, using(crate::proofs::Insides::no_single))]
fn only_text<'n>(nodes: &'n [Node<'_>]) -> Option<&'n str>
    ensures { option_map (λ s. s.now) result ≡ only_text (views nodes.now) }
{
    match nodes {
        [] => None,
        [node] => text_by(node),
        [_, _, ..] => None,
    }
}

fn is_text(text: Option<&str>, name: &str) -> bool
    ensures { result ≡ is_text (option_map (λ s. s.now) text.entry) name.now }
{
    match text {
        Some(text) => text == name,
        None => false,
    }
}

fn push_colon(out: &mut String, ns: Ns) -> Result<(), AllocError>
    ensures { OnOk result (string_bytes out.new ≡ string_bytes out.old ++ colon ns) }
{
    match ns {
        Ns::File | Ns::Category => out.push_str(":")?,
        Ns::Main
        | Ns::Talk
        | Ns::User
        | Ns::UserTalk
        | Ns::Project
        | Ns::ProjectTalk
        | Ns::FileTalk
        | Ns::Template
        | Ns::TemplateTalk
        | Ns::Help
        | Ns::HelpTalk
        | Ns::CategoryTalk => {}
    }
    Ok(())
}

#[tactic(auto, using(crate::proofs::Insides::some_inside, crate::proofs::Insides::none_inside))]
fn push_nowiki_or(out: &mut String, inside: &str) -> Result<(), AllocError>
    ensures { OnOk result (string_bytes out.new ≡ string_bytes out.old ++ nowiki_or inside.now) }
{
    if inside.is_empty() {
        push_nowiki(out)?;
    } else {
        out.push_str(inside)?;
    }
    Ok(())
}

fn push_link_text(out: &mut String, is_name: bool, inside: &str) -> Result<(), AllocError>
    ensures { OnOk result (string_bytes out.new ≡ string_bytes out.old ++ link_text is_name inside.now) }
{
    if !is_name {
        out.push_str("|")?;
        push_nowiki_or(out, inside)?;
    }
    Ok(())
}

fn push_fragment(out: &mut String, fragment: &Option<Str>) -> Result<(), AllocError>
    ensures { OnOk result (string_bytes out.new ≡ string_bytes out.old ++ fragment_suffix fragment.now) }
{
    if let Some(fragment) = fragment {
        out.push_str("#")?;
        out.push_str(fragment.as_str())?;
    }
    Ok(())
}

fn push_page_link(
    alloc: Global,
    out: &mut String,
    title: &Title,
    nodes: &[Node<'_>],
    inside: &str,
) -> Result<(), NoMemory>
    ensures { OnOk result (string_bytes out.new ≡ string_bytes out.old ++ page_link (Some title.now) (views nodes.now) inside.now) }
{
    let full = full_name(alloc, title)?;
    let is_name = is_text(only_text(nodes), full.as_str());
    out.push_str("[[")?;
    push_colon(out, title.ns)?;
    out.push_str(full.as_str())?;
    push_fragment(out, &title.fragment)?;
    push_link_text(out, is_name, inside)?;
    out.push_str("]]")?;
    Ok(())
}

/// A link to a page; nothing where the reference leads to none.
pub fn page_link(alloc: Global, node: &Node<'_>, inside: &str) -> Result<Str, NoMemory>
    ensures { IfOk result (λ s. s ≡ page_link (read_link (href_of (label_of (out-Node node.now)))) (views (out-Node node.now).children) inside.now) }
{
    let mut out = String::new(alloc);
    if let Some(title) = title_of_href(alloc, href_of(node))? {
        push_page_link(alloc, &mut out, &title, node.children.as_slice(), inside)?;
    }
    Ok(Str::from_string(out))
}

fn begins_with_blank(text: &str) -> bool
    ensures { result ≡ begins_with_blank text.now }
{
    match text.as_bytes() {
        [] => false,
        [first, ..] => *first == b' ' || *first == b'\t',
    }
}

/// Appends the text of a link after its URL. Blanks there are no text: before one with which it begins is `<nowiki/>`.
#[tactic(auto, using(crate::proofs::Insides::space_before, crate::proofs::Insides::nothing_before))]
fn push_after_space(out: &mut String, inside: &str) -> Result<(), AllocError>
    ensures { OnOk result (string_bytes out.new ≡ string_bytes out.old ++ after_space inside.now) }
{
    if !inside.is_empty() {
        out.push_str(" ")?;
        push_nowiki_if(out, begins_with_blank(inside))?;
        out.push_str(inside)?;
    }
    Ok(())
}

/// An external link in brackets.
pub fn external_link(alloc: Global, node: &Node<'_>, inside: &str) -> Result<Str, NoMemory>
    ensures { IfOk result (λ s. s ≡ external_link (href_of (label_of (out-Node node.now))) inside.now) }
{
    let mut out = String::from_str(alloc, "[")?;
    out.push_str(href_of(node))?;
    push_after_space(&mut out, inside)?;
    out.push_str("]")?;
    Ok(Str::from_string(out))
}

fn push_texts(out: &mut Str, texts: &[Text<'_>]) -> Result<(), NoMemory>
    ensures { OnOk result (out.new ≡ out.old ++ texts_of texts.now) }
{
    for text in texts {
        out.push_str(text.as_str())?;
    }
    Ok(())
}

fn push_pair(out: &mut Str, old: &Node<'_>, inside: &str) -> Result<(), NoMemory>
    ensures { OnOk result (out.new ≡ out.old ++ (texts_of (out-Node old.now).source.opening ++ (inside.now ++ texts_of (out-Node old.now).source.closing))) }
{
    push_texts(out, old.opening())?;
    out.push_str(inside)?;
    push_texts(out, old.closing())?;
    Ok(())
}

/// A changed tag with its old delimiters.
pub fn tag_pair(alloc: Global, kept: Option<Kept<'_, '_>>, inside: &str) -> Result<Str, NoMemory>
    ensures { IfOk result (λ s. s ≡ tag_pair (option_map kept_view kept.entry) inside.now) }
{
    let mut out = Str::new(alloc);
    match kept {
        Some(kept) => push_pair(&mut out, kept.node, inside)?,
        None => out.push_str(inside)?,
    }
    Ok(out)
}
