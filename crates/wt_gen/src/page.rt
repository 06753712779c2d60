ghost use Rattle.std.specs.Prelude.{◌≡◌, ◌≤◌, ◌++◌, IfOk, OnOk};
ghost use Rattle.wt_gen.specs.Gen.{numbered, section, sections, template};

use std::alloc::Global;
use wt_span::{NoMemory, Str};

/// The most sections of a page that is made from a number.
pub const MOST_SECTIONS: u32 = 10_000;

/// The text of the template `T` that each section calls.
pub fn template() -> &'static str
    ensures { result.now ≡ template }
{
    "'''t'''"
}

/// Appends a number between two texts.
fn push_numbered(page: &mut Str, before: &str, number: u32, after: &str) -> Result<(), NoMemory>
    ensures { OnOk result (page.new ≡ page.old ++ numbered before.now number after.now) }
{
    let mut buffer = itoa::Buffer::new();
    page.push_str(before)?;
    page.push_str(buffer.format(number))?;
    page.push_str(after)?;
    Ok(())
}

/// Appends the section of a number.
#[tactic(auto, unfolding(crate::specs::Gen::section))]
fn push_section(page: &mut Str, number: u32) -> Result<(), NoMemory>
    ensures { OnOk result (page.new ≡ page.old ++ section number) }
{
    push_numbered(page, "== Section ", number, " ==\n\n")?;
    push_numbered(page, "Word ''", number, "'' and ")?;
    push_numbered(page, "[[Page ", number, "]].\n\n")?;
    push_numbered(page, "* item ", number, "\n\n{{T}}\n\n")?;
    Ok(())
}

/// The page that `gen` makes: sections from 1 to `count`, each with a heading, a paragraph, a list and
/// a call of the template `T`. It grows by 62 to 78 bytes a section.
pub fn page_of(alloc: Global, count: u32) -> Result<Str, NoMemory>
    requires { count ≤ MOST_SECTIONS }
    ensures { IfOk result (λ page. page ≡ sections count) }
{
    let mut page = Str::new(alloc);
    for number in 0..count {
        push_section(&mut page, number + 1)?;
    }
    Ok(page)
}
