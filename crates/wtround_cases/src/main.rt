//! `wtround_cases` answers many cases of the commands, a line each: it reads them from standard input and
//! writes each answer to standard output.
//!
//! A case has three or four fields between tabs: the words of the call (in hex, joined by `,`), the
//! bytes of its standard input (in hex, or `HEX*COUNT` for so many times the same), its pages
//! (`NAME=BYTES`, alike, joined by `,`, no name twice), and how its devices behave: words
//! `DEVICE:MOST:CALL`, joined by `,`, for `input`, `folder`, `out` and `err`, where a call gives or
//! takes at most so many bytes and the one of this number fails. An answer has the status, the bytes
//! of standard output and those of standard error, both in hex. With the word `names` in the fourth
//! field it also has the names that the call asked its folder for. A line that isn't a case is answered
//! `malformed`, and one for which no memory is found `no memory`. Each answer is written before the
//! next line is read.
//! The status is 0 once all lines are answered, and 7 where a standard stream failed.
#![tactic(auto)]

mod answer;
mod case;
mod device;

use crate::answer::answer;
use crate::case::{Case, CaseRefusal};
use std::alloc::Global;
use std::io;
use std::io::{BufRead, BufReader, BufWriter, Write};
use std::process::ExitCode;
use wt_pagetool::Status;

/// The answer to a line, which may end with its line break.
fn answer_to(alloc: Global, line: &[u8]) -> Result<String, CaseRefusal> {
    let line = line.strip_suffix(b"\n").unwrap_or(line);
    let case = Case::read(alloc, line)?;
    Ok(answer(alloc, case)?)
}

fn write_answer(alloc: Global, line: &[u8], out: &mut impl Write) -> io::Result<()> {
    match answer_to(alloc, line) {
        Ok(text) => out.write_all(text.as_bytes()),
        Err(CaseRefusal::Malformed) => out.write_all(b"malformed\n"),
        Err(CaseRefusal::NoMemory) => out.write_all(b"no memory\n"),
    }
}

/// Answers every line.
fn answer_all(rt: &HostRuntime) -> io::Result<()> {
    let alloc = rt.alloc();
    let mut input = BufReader::new(alloc, rt.reader())?;
    let mut out = BufWriter::new(alloc, io::writer(rt))?;
    let mut line = Vec::new(alloc);
    for _ in 0..u64::MAX {
        line.clear();
        if input.read_until(b'\n', &mut line)? == 0 {
            break;
        }
        write_answer(alloc, &line, &mut out)?;
        out.flush()?;
    }
    Ok(())
}

fn main(rt: HostRuntime) -> ExitCode {
    match answer_all(&rt) {
        Ok(()) => ExitCode::SUCCESS,
        Err(_) => ExitCode::from(Status::WriteFault.code()),
    }
}
