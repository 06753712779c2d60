//! The texts that stand for a page that isn't taken.
ghost use Rattle.std.specs.Prelude.{◌≡◌, IfOk};
ghost use Rattle.wt_expand.specs.Expansion.{short_name, loop_text, depth_text, absent_text};

use std::alloc::Global;
use wt_names::{Ns, Title, full_name};
use wt_span::{NoMemory, Str};

/// The name of a title in messages: without the namespace of templates.
fn short_name(alloc: Global, title: &Title) -> Result<Str, NoMemory>
    ensures { IfOk result (λ name. name ≡ short_name title.now) }
{
    if title.ns == Ns::Template {
        return Str::copy_of(alloc, title.name.as_str());
    }
    full_name(alloc, title)
}

/// What stands for a page that is being expanded already.
#[tactic(auto, unfolding(wt_expand::specs::Expansion::loop_text))]
pub fn loop_text(alloc: Global, title: &Title) -> Result<Str, NoMemory>
    ensures { IfOk result (λ text. text ≡ loop_text title.now) }
{
    let mut text = Str::copy_of(alloc, "Template loop: ")?;
    text.push_str(short_name(alloc, title)?.as_str())?;
    Ok(text)
}

/// What stands for a page where no more may be expanded one inside another.
#[tactic(auto, unfolding(wt_expand::specs::Expansion::depth_text))]
pub fn depth_text(alloc: Global, title: &Title) -> Result<Str, NoMemory>
    ensures { IfOk result (λ text. text ≡ depth_text title.now) }
{
    let mut text = Str::copy_of(alloc, "Template depth: ")?;
    text.push_str(short_name(alloc, title)?.as_str())?;
    Ok(text)
}

/// The link that stands for an absent page of this full name.
#[tactic(auto, unfolding(wt_expand::specs::Expansion::absent_text))]
pub fn absent_text(alloc: Global, full: &str) -> Result<Str, NoMemory>
    ensures { IfOk result (λ text. text ≡ absent_text full.now) }
{
    let mut text = Str::copy_of(alloc, "[[:")?;
    text.push_str(full)?;
    text.push_str("]]")?;
    Ok(text)
}
