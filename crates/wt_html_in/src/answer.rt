ghost use Rattle.std.specs.Prelude.{◌≡◌, ℕ, ◌+◌, ◌<◌, ◌^◌, List, true};
ghost use Rattle.wt_html_grammar.specs.Markup.{Stands};
ghost use Rattle.wt_html_elements.specs.Built.{view_content};
ghost use Rattle.wt_schema.specs.Fit.{elements};
ghost use Rattle.wt_html_in.specs.Answers.{Answers};
ghost use Rattle.wt_html_in.specs.Feeding.{refusal_told};
ghost use Rattle.wt_html_nodes.specs.Texts.{is_utf8_markup};

use crate::edited::Edited;
use crate::frame::page;
use crate::refusal::HtmlRefusal;
use bumpalo::Bump;
use std::alloc::Global;
use wt_html_elements::{Content, HtmlRefusal as ElementRefusal};
use wt_html_nodes::FitFault;

/// The refusal of a reader of elements.
pub fn refusal_of(refusal: ElementRefusal) -> HtmlRefusal
    ensures { result ≡ refusal_told refusal }
{
    match refusal {
        ElementRefusal::Html { place, why } => HtmlRefusal::Html { place, why },
        ElementRefusal::NoMemory => HtmlRefusal::NoMemory,
    }
}

/// What an input is that stands for this root.
pub fn answer<'a>(
    alloc: Global,
    arena: &'a Bump<Global>,
    root: Content,
) -> Result<Edited<'a>, HtmlRefusal>
    requires few { elements (view_content root) + 1 < 2 ^ 32 }
    requires utf8 { is_utf8_markup (view_content root) ≡ true }
    ensures { (bytes : List ℕ) → Stands bytes (view_content root) → Answers result bytes }
{
    match page(alloc, arena, root) {
        Ok(edited) => Ok(edited),
        Err(FitFault::Unfit { element, why }) => Err(HtmlRefusal::Unfit { element, why }),
        Err(FitFault::NoMemory) => Err(HtmlRefusal::NoMemory),
    }
}
