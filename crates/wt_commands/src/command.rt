ghost use Rattle.std.specs.Prelude.{◌≡◌, IfOk, option_map};
ghost use Rattle.wt_commands.specs.Words.{whole_name, page_name, section_count, page_command, command_of};

use crate::count::section_count;
use std::alloc::Global;
use wt_names::{Title, full_name, read_title};
use wt_span::{List, NoMemory, Str};

/// What is written of a page.
#[derive(Clone, Copy)]
pub enum PageCommand {
    /// Its HTML.
    Html,
    /// Its numbered nodes, with their places.
    Ranges,
    /// Its doubtful places.
    Lint,
}

/// What the words of a call ask for.
#[derive(Drop)]
pub enum Command {
    /// What is written of the page of this full name.
    Page(PageCommand, Str),
    /// What the page of this full name shows with its templates expanded.
    Expand(Str),
    /// The page of this full name, changed as its HTML, which is the input, was.
    Edit(Str),
    /// The page of this full name, changed as its HTML, which is the input, was, by the difference of the
    /// two alone: marks count for nothing.
    Selser(Str),
    /// What is counted of a page that is made with so many sections.
    Gen(u32),
    /// The source of the page whose HTML is the input.
    Wikitext,
}

fn whole_name(alloc: Global, title: &Title) -> Result<Option<Str>, NoMemory>
    ensures { IfOk result (λ name. name ≡ whole_name title.now) }
{
    if title.fragment.is_some() {
        return Ok(None);
    }
    let name = full_name(alloc, title)?;
    Ok(Some(name))
}

/// The full name of the page that a word names, or None where it is no good title without a fragment.
#[tactic(auto, unfolding(crate::specs::Words::page_name))]
fn page_name(alloc: Global, word: &str) -> Result<Option<Str>, NoMemory>
    ensures { IfOk result (λ name. name ≡ page_name word.now) }
{
    match read_title(alloc, word)? {
        Some(title) => {
            let name = whole_name(alloc, &title)?;
            Ok(name)
        }
        None => Ok(None),
    }
}

fn of_page(alloc: Global, command: PageCommand, title: &str) -> Result<Option<Command>, NoMemory>
    ensures { IfOk result (λ found. found ≡ option_map
        (λ name. Command.Page command name) (page_name title.now)) }
{
    match page_name(alloc, title)? {
        Some(name) => Ok(Some(Command::Page(command, name))),
        None => Ok(None),
    }
}

fn expansion_of(alloc: Global, title: &str) -> Result<Option<Command>, NoMemory>
    ensures { IfOk result (λ found. found ≡ option_map (λ name. Command.Expand name) (page_name title.now)) }
{
    match page_name(alloc, title)? {
        Some(name) => Ok(Some(Command::Expand(name))),
        None => Ok(None),
    }
}

fn edit_of(alloc: Global, title: &str) -> Result<Option<Command>, NoMemory>
    ensures { IfOk result (λ found. found ≡ option_map (λ name. Command.Edit name) (page_name title.now)) }
{
    match page_name(alloc, title)? {
        Some(name) => Ok(Some(Command::Edit(name))),
        None => Ok(None),
    }
}

fn selser_of(alloc: Global, title: &str) -> Result<Option<Command>, NoMemory>
    ensures { IfOk result (λ found. found ≡ option_map (λ name. Command.Selser name) (page_name title.now)) }
{
    match page_name(alloc, title)? {
        Some(name) => Ok(Some(Command::Selser(name))),
        None => Ok(None),
    }
}

fn gen_of(count: &str) -> Option<Command>
    ensures { result ≡ option_map (λ n. Command.Gen n) (section_count count.now) }
{
    match section_count(count) {
        Some(count) => Some(Command::Gen(count)),
        None => None,
    }
}

/// A command of two words: the title of a page is the second, or a number of sections.
fn page_command(alloc: Global, word: &str, title: &str) -> Result<Option<Command>, NoMemory>
    ensures { IfOk result (λ command. command ≡ page_command word.now title.now) }
{
    if word == "html" {
        return of_page(alloc, PageCommand::Html, title);
    }
    if word == "ranges" {
        return of_page(alloc, PageCommand::Ranges, title);
    }
    if word == "expand" {
        return expansion_of(alloc, title);
    }
    if word == "edit" {
        return edit_of(alloc, title);
    }
    if word == "gen" {
        return Ok(gen_of(title));
    }
    if word == "lint" {
        return of_page(alloc, PageCommand::Lint, title);
    }
    if word == "selser" {
        return selser_of(alloc, title);
    }
    Ok(None)
}

/// The command that the words name, or None where they name none.
#[tactic(auto, unfolding(crate::specs::Words::command_of))]
pub fn command_of(alloc: Global, words: &List<Str>) -> Result<Option<Command>, NoMemory>
    ensures { IfOk result (λ command. command ≡ command_of words.now) }
{
    match words.as_slice() {
        [word] => {
            if word.as_str() != "wikitext" {
                return Ok(None);
            }
            Ok(Some(Command::Wikitext))
        }
        [word, title] => page_command(alloc, word.as_str(), title.as_str()),
        _ => Ok(None),
    }
}
