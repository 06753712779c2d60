//! The command that makes a page from a number and its HTML, and reads this back.

ghost use Rattle.std.specs.Prelude.{◌≡◌, ◌≤◌, length, string_bytes, [], ◌∷◌, IfOk, IfErr, Some};
ghost use Rattle.wt_schema.specs.Read.{read};
ghost use Rattle.wt_schema.specs.Html.{html_text};
ghost use Rattle.wt_tree.specs.Tiling.{is_group};
ghost use Rattle.wt_tree.specs.View.{view};
ghost use Rattle.wt_commands.specs.Answers.{told_of_tree, gen_of, gen_answer};
ghost use Rattle.wt_commands.specs.Causes.{Answered, IsOfPage};
ghost use Rattle.wt_commands.specs.Gen.{back, line, gen_line, gen_pages, group_count, number_count, template_page};
ghost use Rattle.wt_gen.specs.declared.page.TheConstants.{MOST_SECTIONS};

use crate::output::Output;
use crate::page::{text_of_page, tree_of_text};
use crate::refusal::Refusal;
use bumpalo::Bump;
use std::alloc::{AllocError, Global};
use wt_devices::{Folder, NeverFailsFolder};
use wt_gen::{page_of, template};
use wt_html_in::{HtmlRefusal, read_html};
use wt_html_out::{LengthRefusal, html_bytes_within};
use wt_span::{HTML_BYTES, List, NoMemory, PAGE_BYTES, Str};
use wt_tree::{Annotated, Kind, Node, Ranges, flat, walk};

/// The page of the template that each section calls, with its full name.
fn template_page(alloc: Global) -> Result<(Str, List<u8>), NoMemory>
    ensures { IfOk result (λ page. page ≡ template_page) }
{
    let name = Str::copy_of(alloc, "Template:T")?;
    let text = List::from_vec(Vec::from_slice(alloc, template().as_bytes())?);
    Ok((name, text))
}

/// The pages of the folder: this one alone.
fn template_pages(alloc: Global) -> Result<List<(Str, List<u8>)>, NoMemory>
    ensures { IfOk result (λ pages. pages ≡ template_page ∷ []) }
{
    let page = template_page(alloc)?;
    let mut pages = List::new(alloc);
    pages.push(page)?;
    Ok(pages)
}

/// The folder of a page that is made from a number.
#[tactic(auto, using(crate::proofs::GenLaws::one_apart), unfolding(crate::specs::Gen::gen_pages))]
fn gen_folder(alloc: Global) -> Result<NeverFailsFolder, NoMemory>
    ensures { IfOk result (λ folder. ⟦<NeverFailsFolder as Folder>⟧.pages folder ≡ Some gen_pages) }
{
    let pages = template_pages(alloc)?;
    Ok(NeverFailsFolder::new(alloc, pages))
}

/// How many nodes have a number.
fn number_count(rows: &[(u32, Kind, Option<Ranges>)]) -> usize
    ensures { result ≡ number_count rows.now }
{
    let mut count = 0;
    for row in rows {
        if row.0 != 0 {
            count += 1;
        }
    }
    count
}

fn is_group(kind: Kind) -> bool
    ensures { result ≡ is_group kind }
{
    matches!(kind, Kind::Group)
}

/// How many nodes are groups.
fn group_count(rows: &[(u32, Kind, Option<Ranges>)]) -> usize
    ensures { result ≡ group_count rows.now }
{
    let mut count = 0;
    for row in rows {
        if is_group(row.1) {
            count += 1;
        }
    }
    count
}

/// How many bytes come back from HTML: those of the source of what is read of it.
fn bytes_back(alloc: Global, html: &[u8]) -> Result<usize, NoMemory>
    requires { length html.now ≤ HTML_BYTES }
    ensures { IfOk result (λ n. n ≡ back (read html.now)) }
{
    let arena = Bump::new(alloc);
    match read_html(alloc, html, &arena) {
        Ok(edited) => {
            let source = flat(alloc, edited.body())?;
            Ok(source.as_str().len())
        }
        Err(HtmlRefusal::Html { .. }) => Ok(0),
        Err(HtmlRefusal::Unfit { .. }) => Ok(0),
        Err(HtmlRefusal::NoMemory) => Err(NoMemory),
    }
}

#[tactic(auto, unfolding(crate::specs::Gen::line))]
fn line_of(
    alloc: Global,
    bytes: usize,
    nodes: usize,
    groups: usize,
    back: usize,
) -> Result<String, AllocError>
    ensures { IfOk result (λ text. string_bytes text ≡ line bytes nodes groups back) }
{
    format!(in alloc; "bytes {bytes} nodes {nodes} groups {groups} back {back}\n")
}

/// The line of a page of so many bytes, by its tree and its HTML.
#[tactic(auto, unfolding(crate::specs::Gen::gen_line))]
fn line_of_tree(alloc: Global, bytes: usize, body: &Node<'_>, html: &[u8]) -> Result<Str, NoMemory>
    requires few { length html.now ≤ HTML_BYTES }
    requires html { html.now ≡ html_text (view body.now) }
    ensures { IfOk result (λ text. text ≡ gen_line bytes (view body.now)) }
{
    let rows = walk(alloc, body)?;
    let nodes = number_count(rows.as_slice());
    let groups = group_count(rows.as_slice());
    let back = bytes_back(alloc, html)?;
    let line = line_of(alloc, bytes, nodes, groups, back)?;
    Ok(Str::from_string(line))
}

/// What is counted of a page of so many bytes with this tree.
fn output_of_tree(alloc: Global, bytes: usize, tree: &Annotated<'_>) -> Result<Output, Refusal>
    ensures answered { Answered (told_of_tree bytes (view tree.now.body)) result }
    ensures of_page { IfErr result IsOfPage }
{
    match html_bytes_within(alloc, tree, HTML_BYTES) {
        Ok(html) => {
            let line = line_of_tree(alloc, bytes, tree.body(), html.as_slice())?;
            Ok(Output::Text(line))
        }
        Err(LengthRefusal::TooLong) => Err(Refusal::HtmlTooLong),
        Err(LengthRefusal::NoMemory) => Err(Refusal::NoMemory),
    }
}

/// What is counted of a page that is made from a number.
fn output_of_made(alloc: Global, page: &str) -> Result<Output, Refusal>
    requires { length page.now ≤ PAGE_BYTES }
    ensures answered { Answered (gen_of page.now) result }
    ensures of_page { IfErr result IsOfPage }
{
    let mut folder = gen_folder(alloc)?;
    let arena = Bump::new(alloc);
    let tree = tree_of_text(alloc, page, &arena, &mut folder)?;
    output_of_tree(alloc, page.len(), &tree)
}

/// What `gen` counts of the page that it makes with so many sections: how many bytes it has, how many of
/// its nodes have numbers, how many groups it has, and how many bytes came back from its HTML.
pub fn counts_of_made(alloc: Global, count: u32) -> Result<Output, Refusal>
    requires { count ≤ MOST_SECTIONS }
    ensures answered { Answered (gen_answer count) result }
    ensures of_page { IfErr result IsOfPage }
{
    let page = page_of(alloc, count)?;
    let text = text_of_page(page.as_str().as_bytes())?;
    output_of_made(alloc, text)
}
