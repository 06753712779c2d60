//! What is doubtful at one node.

ghost use Rattle.std.specs.Prelude.{◌≡◌, ◌≤◌, ◌++◌, length, OnOk};
ghost use Rattle.wt_tree.specs.View.{label_of};
ghost use Rattle.wt_tree.specs.declared.node.Node.{out-Node};
ghost use Rattle.wt_lint.specs.Found.{as_all, each};
ghost use Rattle.wt_lint.specs.Findings.{at_range, stray_ends, titles_after};
ghost use Rattle.wt_lint.specs.Parts.{sign_findings, tag_findings};
ghost use Rattle.wt_lint.specs.Titles.{names};
ghost use Rattle.wt_lint.specs.declared.finding.Kind.TheVariants as kind;

use crate::bare_finding::BareFinding;
use crate::bytes::slice;
use crate::category::title_of;
use crate::finding::Kind;
use crate::heading::is_unequal;
use crate::place::{Place, Sort, sort_of};
use crate::push::push_whole;
use crate::search::Search;
use crate::style::{is_empty, is_open_style, is_unclosed};
use crate::tag::{is_closing_tag, is_open_tag};
use crate::text::{push_pairs, push_runs, push_table_ends};
use std::alloc::Global;
use wt_span::NoMemory;
use wt_tree::{Node, Ranges};

/// Takes the ends of tables of a text that is directly in a paragraph.
fn push_stray_ends(
    found: &mut Vec<BareFinding>,
    page: &[u8],
    paragraph: Option<u32>,
    range: Ranges,
) -> Result<(), NoMemory>
    requires within { range.end ≤ length page.now }
    requires ordered { range.start ≤ range.end }
    ensures { OnOk result (each found.new.items ≡ each found.old.items
        ++ as_all kind.StrayTableEnd (stray_ends page.now paragraph range)) }
{
    if let Some(from) = paragraph {
        let bytes = slice(page, range.start, range.end);
        push_table_ends(found, page, from, range.start, bytes)?;
    }
    Ok(())
}

/// Takes the braces and brackets of a text.
fn push_signs(
    found: &mut Vec<BareFinding>,
    page: &[u8],
    in_nowiki: bool,
    range: Ranges,
) -> Result<(), NoMemory>
    requires within { range.end ≤ length page.now }
    requires ordered { range.start ≤ range.end }
    ensures { OnOk result (each found.new.items ≡ each found.old.items
        ++ sign_findings page.now in_nowiki range) }
{
    if in_nowiki {
        return Ok(());
    }
    let bytes = slice(page, range.start, range.end);
    push_runs(found, Kind::OpenBraces, b'{', range.start, bytes)?;
    push_runs(found, Kind::StrayBraces, b'}', range.start, bytes)?;
    push_pairs(found, Kind::OpenLink, b'[', range.start, bytes)?;
    push_pairs(found, Kind::StrayLinkEnd, b']', range.start, bytes)?;
    Ok(())
}

/// Takes a tag that is alone.
fn push_tag(found: &mut Vec<BareFinding>, page: &[u8], range: Ranges) -> Result<(), NoMemory>
    requires within { range.end ≤ length page.now }
    requires ordered { range.start ≤ range.end }
    ensures { OnOk result (each found.new.items ≡ each found.old.items ++ tag_findings page.now range) }
{
    let source = slice(page, range.start, range.end);
    push_whole(found, is_open_tag(source), Kind::OpenTag, range)?;
    push_whole(found, is_closing_tag(source), Kind::StrayTag, range)?;
    Ok(())
}

/// Takes what is doubtful at a node of this range.
pub fn push_of_node(
    alloc: Global,
    search: &mut Search,
    page: &[u8],
    place: Place,
    node: &Node<'_>,
    range: Ranges,
) -> Result<(), NoMemory>
    requires within { range.end ≤ length page.now }
    requires ordered { range.start ≤ range.end }
    ensures found { OnOk result (each search.new.found.items ≡ each search.old.found.items
        ++ at_range page.now (names search.old.titles) place (label_of (out-Node node.now)) range) }
    ensures titles { OnOk result (names search.new.titles
        ≡ titles_after (label_of (out-Node node.now)) (names search.old.titles)) }
{
    match sort_of(node.kind) {
        Sort::Style => {
            let is_found = is_open_style(page, range);
            push_whole(&mut search.found, is_found, Kind::OpenStyle, range)
        }
        Sort::Group => {
            let is_found = is_empty(range);
            push_whole(&mut search.found, is_found, Kind::OpenStyle, range)
        }
        Sort::Table => {
            let is_found = is_unclosed(range);
            push_whole(&mut search.found, is_found, Kind::OpenTable, range)
        }
        Sort::Text => {
            push_stray_ends(&mut search.found, page, place.paragraph, range)?;
            push_signs(&mut search.found, page, place.in_nowiki, range)
        }
        Sort::Island => push_tag(&mut search.found, page, range),
        Sort::Heading => {
            let is_found = is_unequal(page, range);
            push_whole(&mut search.found, is_found, Kind::UnequalHeading, range)
        }
        Sort::Category => {
            let is_found = search.titles.note(alloc, title_of(node))?;
            push_whole(&mut search.found, is_found, Kind::RepeatedCategory, range)
        }
        Sort::Paragraph | Sort::Nowiki | Sort::Other => Ok(()),
    }
}
