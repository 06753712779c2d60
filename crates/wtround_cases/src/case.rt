//! A case, read from a line.

ghost use Rattle.std.specs.Prelude.{◌≡◌, ◌≢◌, false, AllPairs};
ghost use Rattle.std.specs.List.{All};

use crate::device::Devices;
use hex::FromHexError;
use std::alloc::{AllocError, Global};
use std::str::FromStr;
use wt_span::{List, NoMemory, Str};

/// Why a line isn't answered.
#[derive(Clone, Copy)]
pub enum CaseRefusal {
    /// It isn't a case.
    Malformed,
    /// No memory was found for it.
    NoMemory,
}

impl From<NoMemory> for CaseRefusal {
    fn from(_: NoMemory) -> CaseRefusal {
        CaseRefusal::NoMemory
    }
}

impl From<AllocError> for CaseRefusal {
    fn from(_: AllocError) -> CaseRefusal {
        CaseRefusal::NoMemory
    }
}

/// Whether a page has this name.
fn has_name(entries: &[(Str, List<u8>)], name: &str) -> bool
    ensures { result ≡ false → All (λ entry. entry.0 ≢ name.now) entries.now }
{
    for (taken, _) in entries {
        if taken.as_str() == name {
            return true;
        }
    }
    false
}

/// Pages of different names.
#[derive(Drop)]
pub struct Pages {
    entries: List<(Str, List<u8>)>,
    ghost distinct: { AllPairs (λ a b. a.0 ≢ b.0) entries },
}

impl Pages {
    fn new(alloc: Global) -> Pages {
        Pages {
            entries: List::new(alloc),
        }
    }

    /// The pages with their names.
    pub fn into_entries(self) -> List<(Str, List<u8>)>
        ensures { AllPairs (λ a b. a.0 ≢ b.0) result }
    {
        self.entries
    }

    /// Adds a page, or refuses one whose name is taken.
    fn add(&mut self, name: Str, page: List<u8>) -> Result<(), CaseRefusal> {
        if has_name(self.entries.as_slice(), name.as_str()) {
            return Err(CaseRefusal::Malformed);
        }
        self.entries.push((name, page))?;
        Ok(())
    }
}

/// The words of a call, what its standard input holds, the pages of its folder, and how its devices
/// behave.
#[derive(Drop)]
pub struct Case {
    pub words: List<Str>,
    pub input: List<u8>,
    pub pages: Pages,
    pub devices: Devices,
}

fn bytes_of(alloc: Global, digits: &str) -> Result<Vec<u8>, CaseRefusal> {
    match hex::decode(alloc, digits) {
        Ok(bytes) => Ok(bytes),
        Err(FromHexError::OutOfMemory) => Err(CaseRefusal::NoMemory),
        Err(_) => Err(CaseRefusal::Malformed),
    }
}

/// The bytes of a field: digits, or `DIGITS*COUNT` for so many times the same.
fn repeated(alloc: Global, field: &str) -> Result<Vec<u8>, CaseRefusal> {
    let Some((digits, count)) = field.split_once('*') else {
        return bytes_of(alloc, field);
    };
    let bytes = bytes_of(alloc, digits)?;
    let count = u32::from_str(count).map_err(|_| CaseRefusal::Malformed)?;
    let mut out = Vec::new(alloc);
    for _ in 0..count {
        out.extend_from_slice(&bytes)?;
    }
    Ok(out)
}

fn text_of(alloc: Global, digits: &str) -> Result<Str, CaseRefusal> {
    match String::from_utf8(bytes_of(alloc, digits)?) {
        Ok(text) => Ok(Str::from_string(text)),
        Err(_) => Err(CaseRefusal::Malformed),
    }
}

fn words_of(alloc: Global, field: &str) -> Result<List<Str>, CaseRefusal> {
    let mut words = List::new(alloc);
    if field.is_empty() {
        return Ok(words);
    }
    for word in field.split(',') {
        words.push(text_of(alloc, word)?)?;
    }
    Ok(words)
}

/// A page `NAME=BYTES`.
fn page_of(alloc: Global, entry: &str) -> Result<(Str, List<u8>), CaseRefusal> {
    let (name, page) = entry.split_once('=').ok_or(CaseRefusal::Malformed)?;
    let bytes = List::from_vec(repeated(alloc, page)?);
    let name = text_of(alloc, name)?;
    Ok((name, bytes))
}

fn pages_of(alloc: Global, field: &str) -> Result<Pages, CaseRefusal> {
    let mut pages = Pages::new(alloc);
    if field.is_empty() {
        return Ok(pages);
    }
    for entry in field.split(',') {
        let (name, page) = page_of(alloc, entry)?;
        pages.add(name, page)?;
    }
    Ok(pages)
}

/// The fields of a line.
#[derive(Clone, Copy)]
struct Fields<'a> {
    words: &'a str,
    input: &'a str,
    pages: &'a str,
    devices: &'a str,
}

/// The fields of a line, of which the last may be absent.
fn fields_of(line: &str) -> Result<Fields<'_>, CaseRefusal> {
    let (words, rest) = line.split_once('\t').ok_or(CaseRefusal::Malformed)?;
    let (input, rest) = rest.split_once('\t').ok_or(CaseRefusal::Malformed)?;
    let (pages, devices) = rest.split_once('\t').unwrap_or((rest, ""));
    Ok(Fields {
        words,
        input,
        pages,
        devices,
    })
}

impl Case {
    /// The case that a line, without its line break, describes.
    pub fn read(alloc: Global, line: &[u8]) -> Result<Case, CaseRefusal> {
        let Ok(line) = std::str::from_utf8(line) else {
            return Err(CaseRefusal::Malformed);
        };
        let fields = fields_of(line)?;
        let devices = Devices::read(fields.devices)?;
        Ok(Case {
            words: words_of(alloc, fields.words)?,
            input: List::from_vec(repeated(alloc, fields.input)?),
            pages: pages_of(alloc, fields.pages)?,
            devices,
        })
    }
}
