//! What is written for a title: its link and the name of its file; and how a link is read.
ghost use Rattle.std.specs.Prelude.{◌≡◌, ◌++◌, IfOk, OnOk, MatchOption, IsUtf8, string_bytes};
ghost use Rattle.percent_encoding.specs.Percent.{percent_decode};
ghost use Rattle.wt_names.specs.Written.{stays_in_link, stays_in_file, escaped, link_text, link_fragment, link_to, file_of, read_bytes, read_link};

use crate::characters::underscored;
use crate::good::read_title;
use crate::title::{Title, full_name};
use percent_encoding::{
    AsciiSet, NON_ALPHANUMERIC, ascii_set, percent_decode, utf8_percent_encode,
};
use std::alloc::{AllocError, Global};
use wt_span::{NoMemory, Str};

/// The ASCII characters that are escaped in a link.
const LINK: AsciiSet = ascii_set!(
    NON_ALPHANUMERIC
        .remove(b'-')
        .remove(b'_')
        .remove(b'.')
        .remove(b'~')
        .remove(b'!')
        .remove(b'*')
        .remove(b'(')
        .remove(b')')
        .remove(b',')
        .remove(b';')
        .remove(b':')
        .remove(b'@')
        .remove(b'/')
        .remove(b'$')
);

/// The ASCII characters that are escaped in the name of a file.
const FILE: AsciiSet = ascii_set!(NON_ALPHANUMERIC.remove(b'-').remove(b'_').remove(b'.'));

/// Appends a text with the escapes of a link.
#[tactic(auto, using(crate::proofs::Escapes::link_escaped))]
fn push_link_escaped(out: &mut String, text: &str) -> Result<(), AllocError>
    ensures { OnOk result (string_bytes out.new ≡ string_bytes out.old ++ escaped stays_in_link text.now) }
{
    utf8_percent_encode(text, LINK).append_to(out)
}

/// Appends a text with the escapes of the name of a file.
#[tactic(auto, using(crate::proofs::Escapes::file_escaped))]
fn push_file_escaped(out: &mut String, text: &str) -> Result<(), AllocError>
    ensures { OnOk result (string_bytes out.new ≡ string_bytes out.old ++ escaped stays_in_file text.now) }
{
    utf8_percent_encode(text, FILE).append_to(out)
}

/// Appends a text as it is in a link.
#[tactic(auto, unfolding(crate::specs::Written::link_text))]
fn push_link_text(alloc: Global, out: &mut String, text: &str) -> Result<(), AllocError>
    ensures { OnOk result (string_bytes out.new ≡ string_bytes out.old ++ link_text text.now) }
{
    let text = underscored(alloc, text)?;
    push_link_escaped(out, text.as_str())
}

/// Appends the fragment of a link, where there is one.
fn push_link_fragment(
    alloc: Global,
    out: &mut String,
    fragment: &Option<Str>,
) -> Result<(), AllocError>
    ensures { OnOk result (string_bytes out.new ≡ string_bytes out.old ++ link_fragment fragment.now) }
{
    match fragment {
        Some(fragment) => {
            out.push_str("#")?;
            push_link_text(alloc, out, fragment.as_str())
        }
        None => Ok(()),
    }
}

/// The link to a title: `./`, the full name and where there is one `#` and the fragment, with `_`
/// for spaces and percent-encoded, as Parsoid writes the `href` of a wiki link.
#[tactic(auto, unfolding(crate::specs::Written::link_to))]
pub fn href_of(alloc: Global, t: &Title) -> Result<Str, NoMemory>
    ensures { IfOk result (λ href. href ≡ link_to t.now) }
{
    let full = full_name(alloc, t)?;
    let mut href = String::from_str(alloc, "./")?;
    push_link_text(alloc, &mut href, full.as_str())?;
    push_link_fragment(alloc, &mut href, &t.fragment)?;
    Ok(Str::from_string(href))
}

/// The name of the file that holds the page of this full name. It is in its folder whatever the
/// text is; it may have up to three times its bytes and five more, which is more than many file
/// systems allow.
#[tactic(auto, unfolding(crate::specs::Written::file_of))]
pub fn file_name(alloc: Global, full: &str) -> Result<Str, NoMemory>
    ensures { IfOk result (λ name. name ≡ file_of full.now) }
{
    let full = underscored(alloc, full)?;
    let mut name = String::new(alloc);
    push_file_escaped(&mut name, full.as_str())?;
    name.push_str(".wiki")?;
    Ok(Str::from_string(name))
}

/// The text that an escaped text stands for; `None` where its bytes are no UTF-8.
fn unescaped(alloc: Global, text: &str) -> Result<Option<String>, AllocError>
    ensures { IfOk result (λ o. MatchOption o (¬ IsUtf8 (percent_decode text.now)) (λ s. string_bytes s ≡ percent_decode text.now)) }
{
    let mut bytes = Vec::new(alloc);
    percent_decode(text.as_bytes()).append_to(&mut bytes)?;
    match String::from_utf8(bytes) {
        Ok(text) => Ok(Some(text)),
        Err(_) => Ok(None),
    }
}

/// The title that an escaped text is, where it is one.
fn read_escaped(alloc: Global, text: &str) -> Result<Option<Title>, NoMemory>
    ensures { IfOk result (λ t. t ≡ read_bytes (percent_decode text.now)) }
{
    match unescaped(alloc, text)? {
        Some(text) => read_title(alloc, text.as_str()),
        None => Ok(None),
    }
}

/// The title that a link leads to; `None` where it leads to none: where it doesn't begin with
/// `./`, what follows is, unescaped, no UTF-8, or that text is no title.
#[tactic(auto, unfolding(crate::specs::Written::read_link))]
pub fn title_of_href(alloc: Global, href: &str) -> Result<Option<Title>, NoMemory>
    ensures { IfOk result (λ t. t ≡ read_link href.now) }
{
    match href.strip_prefix("./") {
        Some(text) => read_escaped(alloc, text),
        None => Ok(None),
    }
}
