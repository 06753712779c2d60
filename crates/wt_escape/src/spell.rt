//! The calls: the content of an edited block, and a new block.

ghost use Rattle.std.specs.Prelude.{◌≡◌, ◌++◌, IfOk, OnOk, Bool, string_bytes};
ghost use Rattle.wt_tree.specs.Tree.{Tree};
ghost use Rattle.wt_tree.specs.View.{view};
ghost use Rattle.wt_original.specs.Page.{TellsSame};
ghost use Rattle.wt_link_spelling.specs.Spelling.{content, inline_spelling, equals, place_in, framed, form_of, block_spelling};
ghost use Rattle.wt_original.specs.PageViews.{page_view};
ghost use Rattle.wt_tree.specs.declared.edit_shape.BlockForm.TheVariants as form;

use crate::units::units_of;
use std::alloc::{AllocError, Global};
use wt_guards::{Setting, spelling_of};
use wt_original::{Page, no_page, page_of_block};
use wt_span::{NoMemory, Str};
use wt_tree::{BlockForm, Node, Place};

fn content(
    alloc: Global,
    page: &Page<'_, '_>,
    new: &Node<'_>,
    place: Place,
) -> Result<String, NoMemory>
    ensures { (same : Tree → Tree → Bool) → TellsSame same → IfOk result (λ s. string_bytes s ≡ content (page_view same page.now) place (view new.now)) }
{
    let units = units_of(alloc, page, place, new.children.as_slice())?;
    let setting = Setting {
        within: false,
        place,
        source: page.source.as_bytes(),
    };
    let spelling = spelling_of(alloc, setting, units.as_slice())?;
    Ok(spelling)
}

/// The content of an edited block, as wikitext: `old` is the block as it is in the page, `new`
/// the block as it was edited, of which only the children count, and `place` what kind of block it
/// is. A node of `new` with the number of a node in `old` that shows the same is written as it is
/// in the page. The delimiters of the block aren't written. It takes time in the size of both, where
/// the numbers in `old` count up in preorder, as a page's do; others are looked up one by one.
#[tactic(auto, unfolding(wt_link_spelling::specs::Spelling::inline_spelling))]
pub fn spell_inline(
    alloc: Global,
    old: &Node<'_>,
    new: &Node<'_>,
    place: Place,
) -> Result<Str, NoMemory>
    ensures { (same : Tree → Tree → Bool) → TellsSame same → IfOk result (λ s. s ≡ inline_spelling same (view old.now) (view new.now) place) }
{
    let page = page_of_block(alloc, old)?;
    let out = content(alloc, &page, new, place)?;
    Ok(Str::from_string(out))
}

// ---- new blocks

fn place_in(form: BlockForm) -> Place
    ensures { result ≡ place_in form }
{
    match form {
        BlockForm::Paragraph | BlockForm::Rule | BlockForm::NoBlock => Place::Paragraph,
        BlockForm::Heading(_) => Place::Heading,
        BlockForm::Item => Place::Item,
    }
}

fn push_equals(out: &mut String, count: u8) -> Result<(), AllocError>
    ensures { OnOk result (string_bytes out.new ≡ string_bytes out.old ++ equals count) }
{
    for _at in 0..count {
        out.push('=')?;
    }
    Ok(())
}

fn push_heading(out: &mut String, level: u8, inside: &str) -> Result<(), AllocError>
    ensures { OnOk result (string_bytes out.new ≡ string_bytes out.old ++ framed (form.Heading level) 0 inside.now) }
{
    push_equals(out, level)?;
    out.push_str(" ")?;
    out.push_str(inside)?;
    out.push_str(" ")?;
    push_equals(out, level)
}

fn push_item(out: &mut String, sign: char, inside: &str) -> Result<(), AllocError>
    ensures { OnOk result (string_bytes out.new ≡ string_bytes out.old ++ framed form.Item sign inside.now) }
{
    out.push(sign)?;
    out.push_str(" ")?;
    out.push_str(inside)
}

fn push_framed(
    out: &mut String,
    form: BlockForm,
    sign: char,
    inside: &str,
) -> Result<(), AllocError>
    ensures { OnOk result (string_bytes out.new ≡ string_bytes out.old ++ framed form sign inside.now) }
{
    match form {
        BlockForm::Paragraph => out.push_str(inside)?,
        BlockForm::Heading(level) => push_heading(out, level, inside)?,
        BlockForm::Rule => out.push_str("----")?,
        BlockForm::Item => push_item(out, sign, inside)?,
        BlockForm::NoBlock => out.push_str(inside)?,
    }
    Ok(())
}

/// A new paragraph, heading, rule or item of a list, as wikitext without a line break at its end.
/// `sign` is the sign of the item's list, `*` or `#`, and counts for an item alone; another kind of
/// block is written as a paragraph.
#[tactic(auto, unfolding(wt_link_spelling::specs::Spelling::block_spelling))]
pub fn spell_block(alloc: Global, new: &Node<'_>, sign: char) -> Result<Str, NoMemory>
    ensures { (same : Tree → Tree → Bool) → TellsSame same → IfOk result (λ s. s ≡ block_spelling same (view new.now) sign) }
{
    let page = no_page(alloc);
    let form = new.kind.edit_shape().form;
    let inside = content(alloc, &page, new, place_in(form))?;
    let mut out = String::new(alloc);
    push_framed(&mut out, form, sign, inside.as_str())?;
    Ok(Str::from_string(out))
}
