ghost use Rattle.std.specs.Prelude.{◌≡◌, IfOk, string_bytes};
ghost use Rattle.wt_commands.specs.Causes.{refusal_of};
ghost use Rattle.wt_commands.specs.Refusals.{status_of, line_of, html_why, fit_why, content_why, check_name, check_node};

use crate::status::Status;
use std::alloc::{AllocError, Global};
use wt_checks::{NodeNumber, TreeRefusal};
use wt_devices::FetchRefusal;
use wt_edit::{ContentWhy, EditRefusal, SelserRefusal};
use wt_html_in::{FitWhy, HtmlRefusal, HtmlWhy};
use wt_span::{NoMemory, Str};
use wt_transclusion::ExpandRefusal;

/// Why a call gives no answer. Places are bytes of the page, or of the input for `Html`; elements are
/// counted from 1 in document order.
#[derive(Drop)]
pub enum Refusal {
    /// The words are none of a command.
    Usage,
    /// There is no page of this title.
    Absent,
    /// The page is longer than a page may be.
    TooLong,
    /// The page isn't UTF-8.
    NotUtf8(u32),
    /// Some call or argument has a hundred others round it, in the page itself or in what is taken of the
    /// template of this full name.
    BracesTooDeep { template: Option<Str>, place: u32 },
    /// The expansion costs more than it may.
    TooLarge,
    /// The template of this full name isn't UTF-8.
    TemplateNotUtf8 { template: Str, place: u32 },
    /// The template of this full name is longer than a template may be.
    TemplateTooLong { template: Str },
    /// The HTML of the page is longer than HTML may be.
    HtmlTooLong,
    /// The input is longer than HTML may be.
    InputTooLong,
    /// The input isn't well-formed.
    Html { place: u32, why: HtmlWhy },
    /// An element of the input doesn't fit.
    Unfit { element: u32, why: FitWhy },
    /// An element of the input has no source.
    Unsourced(u32),
    /// The comparison of the page with the edited tree refuses the edit.
    Checked(TreeRefusal),
    /// The inside of this marked node (`mwN`) can't be written.
    BadContent { node: NodeNumber, why: ContentWhy },
    /// This marked node (`mwN`) can't be read by itself.
    Tangled(NodeNumber),
    /// The new page is longer than a page may be.
    NewPageTooLong,
    /// The expansion of the new page is refused.
    NewExpansion,
    /// The new page doesn't mean what the edited tree shows, first in this child of the body, counted
    /// from 1.
    Unspelled(usize),
    /// The input failed.
    ReadFault,
    /// The folder failed.
    FolderFault,
    /// Standard output failed.
    WriteFault,
    /// No memory was found.
    NoMemory,
}

impl From<NoMemory> for Refusal {
    ghost use Rattle.wt_commands.specs.declared.refusal.Refusal.TheVariants.{NoMemory};

    ghost from_gives = { λ _ r. r ≡ NoMemory };

    fn from(_refusal: NoMemory) -> Refusal {
        Refusal::NoMemory
    }
}

impl From<AllocError> for Refusal {
    ghost use Rattle.wt_commands.specs.declared.refusal.Refusal.TheVariants.{NoMemory};

    ghost from_gives = { λ _ r. r ≡ NoMemory };

    fn from(_refusal: AllocError) -> Refusal {
        Refusal::NoMemory
    }
}

impl From<FetchRefusal> for Refusal {
    ghost use Rattle.wt_commands.specs.Causes.{fetch_refusal};

    ghost from_gives = { λ refusal r. r ≡ fetch_refusal refusal };

    fn from(refusal: FetchRefusal) -> Refusal {
        match refusal {
            FetchRefusal::Failed => Refusal::FolderFault,
            FetchRefusal::NoMemory => Refusal::NoMemory,
        }
    }
}

impl From<ExpandRefusal> for Refusal {
    ghost use Rattle.wt_commands.specs.Causes.{refusal_of_expansion};

    ghost from_gives = { λ refusal r. r ≡ refusal_of_expansion refusal };

    fn from(refusal: ExpandRefusal) -> Refusal {
        match refusal {
            ExpandRefusal::BracesTooDeep { title, place } => Refusal::BracesTooDeep {
                template: title,
                place,
            },
            ExpandRefusal::TooLarge => Refusal::TooLarge,
            ExpandRefusal::FolderFault => Refusal::FolderFault,
            ExpandRefusal::TemplateNotUtf8 { title, place } => Refusal::TemplateNotUtf8 {
                template: title,
                place,
            },
            ExpandRefusal::TemplateTooLong { title } => {
                Refusal::TemplateTooLong { template: title }
            }
            ExpandRefusal::NoMemory => Refusal::NoMemory,
        }
    }
}

impl From<EditRefusal> for Refusal {
    ghost use Rattle.wt_commands.specs.Refusals.{refusal_of_whole};

    ghost from_gives = { λ refusal r. r ≡ refusal_of_whole refusal };

    fn from(refusal: EditRefusal) -> Refusal {
        match refusal {
            EditRefusal::Check(check) => Refusal::Checked(check),
            EditRefusal::BadContent(node, why) => Refusal::BadContent { node, why },
            EditRefusal::Tangled(node) => Refusal::Tangled(node),
            EditRefusal::NewPageTooLong => Refusal::NewPageTooLong,
            EditRefusal::NewExpansion(_cause) => Refusal::NewExpansion,
            EditRefusal::Unspelled(child) => Refusal::Unspelled(child),
            EditRefusal::FolderFault => Refusal::FolderFault,
            EditRefusal::NoMemory => Refusal::NoMemory,
        }
    }
}

impl From<SelserRefusal> for Refusal {
    ghost use Rattle.wt_commands.specs.Refusals.{refusal_of_selser};

    ghost from_gives = { λ refusal r. r ≡ refusal_of_selser refusal };

    fn from(refusal: SelserRefusal) -> Refusal {
        match refusal {
            SelserRefusal::Check(check) => Refusal::Checked(check),
            SelserRefusal::BadContent(node, why) => Refusal::BadContent { node, why },
            SelserRefusal::NewPageTooLong => Refusal::NewPageTooLong,
            SelserRefusal::NewExpansion => Refusal::NewExpansion,
            SelserRefusal::Unspelled(child) => Refusal::Unspelled(child),
            SelserRefusal::FolderFault => Refusal::FolderFault,
            SelserRefusal::NoMemory => Refusal::NoMemory,
        }
    }
}

impl From<HtmlRefusal> for Refusal {
    ghost from_gives = { λ refusal r. r ≡ refusal_of refusal };

    fn from(refusal: HtmlRefusal) -> Refusal {
        match refusal {
            HtmlRefusal::Html { place, why } => Refusal::Html { place, why },
            HtmlRefusal::Unfit { element, why } => Refusal::Unfit { element, why },
            HtmlRefusal::NoMemory => Refusal::NoMemory,
        }
    }
}

impl Refusal {
    /// How a call ends that is refused so.
    pub fn status(&self) -> Status
        ensures { result ≡ status_of self.now }
    {
        match self {
            Refusal::Usage => Status::Usage,
            Refusal::Absent
            | Refusal::TooLong
            | Refusal::NotUtf8(_)
            | Refusal::BracesTooDeep { .. }
            | Refusal::TooLarge
            | Refusal::TemplateNotUtf8 { .. }
            | Refusal::TemplateTooLong { .. }
            | Refusal::HtmlTooLong => Status::PageRefused,
            Refusal::InputTooLong
            | Refusal::Html { .. }
            | Refusal::Unfit { .. }
            | Refusal::Unsourced(_) => Status::HtmlRefused,
            Refusal::Checked(_)
            | Refusal::BadContent { .. }
            | Refusal::Tangled(_)
            | Refusal::NewPageTooLong
            | Refusal::NewExpansion
            | Refusal::Unspelled(_) => Status::EditRefused,
            Refusal::ReadFault => Status::ReadFault,
            Refusal::FolderFault => Status::FolderFault,
            Refusal::WriteFault => Status::WriteFault,
            Refusal::NoMemory => Status::NoMemory,
        }
    }
}

#[tactic(auto, unfolding(crate::specs::Refusals::html_why))]
fn html_why(why: HtmlWhy) -> &'static str
    ensures { result.now ≡ html_why why }
{
    match why {
        HtmlWhy::NotUtf8 => "NotUtf8",
        HtmlWhy::End => "End",
        HtmlWhy::TooDeep => "TooDeep",
        HtmlWhy::EndTag => "EndTag",
        HtmlWhy::Escape => "Escape",
        HtmlWhy::Repeated => "Repeated",
        HtmlWhy::Syntax => "Syntax",
    }
}

#[tactic(auto, unfolding(crate::specs::Refusals::fit_why))]
fn fit_why(why: FitWhy) -> &'static str
    ensures { result.now ≡ fit_why why }
{
    match why {
        FitWhy::Root => "Root",
        FitWhy::Element => "Element",
        FitWhy::Place => "Place",
        FitWhy::Data => "Data",
        FitWhy::Text => "Text",
    }
}

#[tactic(auto, using(crate::proofs::RefusalLines::html_parts))]
fn html_line(alloc: Global, place: u32, why: HtmlWhy) -> Result<String, AllocError>
    ensures { IfOk result (λ line. string_bytes line ≡ line_of (Refusal.Html place why)) }
{
    format!(in alloc; "wtround: html refused at {place}: {}\n", html_why(why))
}

fn unfit_line(alloc: Global, element: u32, why: FitWhy) -> Result<String, AllocError>
    ensures { IfOk result (λ line. string_bytes line ≡ line_of (Refusal.Unfit element why)) }
{
    format!(in alloc;
        "wtround: element {element} does not fit: {}\n",
        fit_why(why)
    )
}

#[tactic(auto, using(crate::proofs::RefusalLines::unsourced_parts))]
fn unsourced_line(alloc: Global, element: u32) -> Result<String, AllocError>
    ensures { IfOk result (λ line. string_bytes line ≡ line_of (Refusal.Unsourced element)) }
{
    format!(in alloc; "wtround: element {element} has no source\n")
}

#[tactic(auto, using(crate::proofs::RefusalLines::own_braces_parts, crate::proofs::RefusalLines::braces_parts))]
fn braces_line(alloc: Global, template: &Option<Str>, place: u32) -> Result<String, AllocError>
    ensures { IfOk result (λ line. string_bytes line ≡ line_of (Refusal.BracesTooDeep template.now place)) }
{
    match template {
        Some(title) => format!(in alloc;
            "wtround: braces too deep at {place} in {}\n",
            title.as_str()
        ),
        None => format!(in alloc; "wtround: braces too deep at {place}\n"),
    }
}

#[tactic(auto, using(crate::proofs::RefusalLines::not_utf8_parts))]
fn not_utf8_line(alloc: Global, template: &str, place: u32) -> Result<String, AllocError>
    ensures { IfOk result (λ line. string_bytes line ≡ line_of (Refusal.TemplateNotUtf8 template.now place)) }
{
    format!(in alloc; "wtround: {template} not UTF-8 at {place}\n")
}

#[tactic(auto, using(crate::proofs::RefusalLines::too_long_parts))]
fn too_long_line(alloc: Global, template: &str) -> Result<String, AllocError>
    ensures { IfOk result (λ line. string_bytes line ≡ line_of (Refusal.TemplateTooLong template.now)) }
{
    format!(in alloc; "wtround: {template} too long\n")
}

#[tactic(auto, unfolding(crate::specs::Refusals::content_why))]
fn content_why(why: ContentWhy) -> &'static str
    ensures { result.now ≡ content_why why }
{
    match why {
        ContentWhy::Element => "Element",
        ContentWhy::Href => "Href",
        ContentWhy::LineBreak => "LineBreak",
        ContentWhy::Nested => "Nested",
        ContentWhy::EmptyList => "EmptyList",
    }
}

#[tactic(auto, unfolding(crate::specs::Refusals::check_name))]
fn check_name(check: &TreeRefusal) -> &'static str
    ensures { result.now ≡ check_name check.now }
{
    match check {
        TreeRefusal::UnknownId(_) => "UnknownId",
        TreeRefusal::RepeatedId(_) => "RepeatedId",
        TreeRefusal::Moved(_) => "Moved",
        TreeRefusal::InTemplate(_) => "InTemplate",
        TreeRefusal::NotEditable(_) => "NotEditable",
        TreeRefusal::UnmarkedChange(_) => "UnmarkedChange",
    }
}

fn check_node(check: TreeRefusal) -> NodeNumber
    ensures { result ≡ check_node check }
{
    match check {
        TreeRefusal::UnknownId(node) => node,
        TreeRefusal::RepeatedId(node) => node,
        TreeRefusal::Moved(node) => node,
        TreeRefusal::InTemplate(node) => node,
        TreeRefusal::NotEditable(node) => node,
        TreeRefusal::UnmarkedChange(node) => node,
    }
}

fn checked_line(alloc: Global, check: TreeRefusal) -> Result<String, AllocError>
    ensures { IfOk result (λ line. string_bytes line ≡ line_of (Refusal.Checked check)) }
{
    format!(in alloc;
        "wtround: edit refused: {} {}\n",
        check_name(&check),
        check_node(check).get()
    )
}

fn content_line(alloc: Global, node: NodeNumber, why: ContentWhy) -> Result<String, AllocError>
    ensures { IfOk result (λ line. string_bytes line ≡ line_of (Refusal.BadContent node why)) }
{
    format!(in alloc;
        "wtround: edit refused: BadContent {} {}\n",
        node.get(),
        content_why(why)
    )
}

/// The line that names a refusal.
#[tactic(auto, unfolding(crate::specs::Refusals::line_of, crate::specs::Refusals::text_of, crate::specs::Refusals::usage_text))]
pub fn line_of(alloc: Global, refusal: &Refusal) -> Result<String, AllocError>
    ensures { IfOk result (λ line. string_bytes line ≡ line_of refusal.now) }
{
    match refusal {
        Refusal::Usage => format!(in alloc;
            "wtround: usage: wtround html TITLE | wikitext | edit TITLE | ranges TITLE | expand TITLE | gen N | lint TITLE | selser TITLE\n"
        ),
        Refusal::Absent => format!(in alloc; "wtround: no such page\n"),
        Refusal::TooLong => format!(in alloc; "wtround: page too long\n"),
        Refusal::NotUtf8(place) => format!(in alloc; "wtround: page not UTF-8 at {place}\n"),
        Refusal::BracesTooDeep { template, place } => braces_line(alloc, template, *place),
        Refusal::TooLarge => format!(in alloc; "wtround: expansion too large\n"),
        Refusal::TemplateNotUtf8 { template, place } => {
            not_utf8_line(alloc, template.as_str(), *place)
        }
        Refusal::TemplateTooLong { template } => too_long_line(alloc, template.as_str()),
        Refusal::HtmlTooLong => format!(in alloc; "wtround: html too long\n"),
        Refusal::InputTooLong => format!(in alloc; "wtround: input too long\n"),
        Refusal::Html { place, why } => html_line(alloc, *place, *why),
        Refusal::Unfit { element, why } => unfit_line(alloc, *element, *why),
        Refusal::Unsourced(element) => unsourced_line(alloc, *element),
        Refusal::Checked(check) => checked_line(alloc, *check),
        Refusal::BadContent { node, why } => content_line(alloc, *node, *why),
        Refusal::Tangled(node) => format!(in alloc;
            "wtround: edit refused: Tangled {}\n",
            node.get()
        ),
        Refusal::NewPageTooLong => format!(in alloc; "wtround: edit refused: NewPageTooLong\n"),
        Refusal::NewExpansion => format!(in alloc; "wtround: edit refused: NewExpansion\n"),
        Refusal::Unspelled(child) => format!(in alloc;
            "wtround: edit refused: Unspelled {child}\n"
        ),
        Refusal::ReadFault => format!(in alloc; "wtround: read fault\n"),
        Refusal::FolderFault => format!(in alloc; "wtround: folder fault\n"),
        Refusal::WriteFault => format!(in alloc; "wtround: write fault\n"),
        Refusal::NoMemory => format!(in alloc; "wtround: no memory\n"),
    }
}

/// The line of want of memory, which itself takes none.
#[tactic(auto, unfolding(crate::specs::Refusals::line_of, crate::specs::Refusals::text_of))]
pub fn no_memory_line() -> &'static [u8]
    ensures { result.now ≡ line_of Refusal.NoMemory }
{
    b"wtround: no memory\n"
}

/// The line of a fault of standard output or standard error.
#[tactic(auto, unfolding(crate::specs::Refusals::line_of, crate::specs::Refusals::text_of))]
pub fn write_fault_line() -> &'static [u8]
    ensures { result.now ≡ line_of Refusal.WriteFault }
{
    b"wtround: write fault\n"
}
