//! The answer to a case.

ghost use Rattle.std.specs.Prelude.{◌<◌};

use crate::case::Case;
use std::alloc::{AllocError, Global};
use wt_devices::{MemFolder, MemSink, MemSource};
use wt_pagetool::run;
use wt_span::Str;

/// How many bytes a call of a source gives at the most: at least one.
fn given(most: usize) -> usize
    ensures { 0 < result }
{
    if most == 0 { 1 } else { most }
}

/// Names in hex, joined by `,`.
fn joined(alloc: Global, names: &[Str]) -> Result<String, AllocError> {
    let mut out = String::new(alloc);
    for name in names {
        if !out.is_empty() {
            out.push(',')?;
        }
        out.push_str(hex::encode(alloc, name.as_str().as_bytes())?.as_str())?;
    }
    Ok(out)
}

/// What came of a case: the status, and the devices after it.
#[derive(Drop)]
struct Outcome {
    status: u8,
    folder: MemFolder,
    out: MemSink,
    err: MemSink,
}

/// Runs the words of a case over its devices in memory.
fn run_case(alloc: Global, case: Case) -> Result<Outcome, AllocError> {
    let Case {
        words,
        input,
        pages,
        devices,
    } = case;
    let failing = devices.failing_calls(alloc)?;
    let mut input = MemSource::new(input, given(devices.input.most), failing.input);
    let mut folder = MemFolder::new(alloc, pages.into_entries(), failing.folder);
    let mut out = MemSink::new(alloc, devices.out.most, failing.out);
    let mut err = MemSink::new(alloc, devices.err.most, failing.err);
    let status = run(alloc, &words, &mut input, &mut folder, &mut out, &mut err);
    Ok(Outcome {
        status,
        folder,
        out,
        err,
    })
}

/// Says in a line what came of a case.
fn line_of(alloc: Global, outcome: &Outcome, tells_names: bool) -> Result<String, AllocError> {
    let status = outcome.status;
    let written = hex::encode(alloc, outcome.out.taken())?;
    let told = hex::encode(alloc, outcome.err.taken())?;
    if !tells_names {
        return format!(in alloc; "{status}\t{written}\t{told}\n");
    }
    let names = joined(alloc, outcome.folder.answered())?;
    format!(in alloc; "{status}\t{written}\t{told}\t{names}\n")
}

/// Runs the words of a case over its devices in memory, and says in a line what came of it.
pub fn answer(alloc: Global, case: Case) -> Result<String, AllocError> {
    let tells_names = case.devices.tells_names;
    let outcome = run_case(alloc, case)?;
    line_of(alloc, &outcome, tells_names)
}
