//! The word of a group: the `typeof` that its first element has, as Parsoid's `mw:Transclusion`.

ghost use Rattle.std.specs.Prelude.{◌≡◌, IfOk};
ghost use Rattle.wt_tree.specs.View.{attrs_of};
ghost use Rattle.wt_annotated.specs.GroupWord.{group_attrs, group_word, part_word, parts_word};

use std::alloc::Global;
use wt_span::{List, NoMemory, Str};
use wt_tree::{Attr, AttrName, DataMw, Part};

#[tactic(auto, unfolding(wt_annotated::specs::GroupWord::transclusion_word, wt_annotated::specs::GroupWord::argument_word))]
fn part_word(part: &Part) -> &'static str
    ensures { result.now ≡ part_word part.now }
{
    match part {
        Part::Template { .. } => "mw:Transclusion",
        Part::Function { .. } => "mw:Transclusion",
        Part::Param { .. } => "mw:Param",
        Part::Literal(_) => "mw:Transclusion",
    }
}

#[tactic(auto, unfolding(wt_annotated::specs::GroupWord::transclusion_word))]
fn parts_word(parts: &[Part]) -> &'static str
    ensures { result.now ≡ parts_word parts.now }
{
    match parts {
        [] => "mw:Transclusion",
        [first, ..] => part_word(first),
    }
}

#[tactic(auto, unfolding(wt_annotated::specs::GroupWord::transclusion_word))]
fn group_word(mw: &Option<DataMw>) -> &'static str
    ensures { result.now ≡ group_word mw.now }
{
    match mw {
        None => "mw:Transclusion",
        Some(DataMw::Parts(parts)) => parts_word(parts.as_slice()),
        Some(DataMw::Extension { .. }) => "mw:Transclusion",
    }
}

/// The attributes of a group whose element carries this.
pub fn group_attrs(alloc: Global, mw: &Option<DataMw>) -> Result<List<Attr>, NoMemory>
    ensures { IfOk result (λ l. attrs_of l ≡ group_attrs mw.now) }
{
    let value = Str::copy_of(alloc, group_word(mw))?;
    let mut attrs = List::new(alloc);
    attrs.push_tight(Attr {
        name: AttrName::Typeof,
        value,
    })?;
    Ok(attrs)
}
