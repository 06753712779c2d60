//! `wtround` answers one command over the pages of the directory `pages`, a page TITLE in the file
//! `TITLE.wiki`: `wtround html TITLE` writes the page's HTML to standard output, `wtround wikitext` the
//! source of the page whose HTML it reads from standard input, and `wtround selser TITLE` the page, changed
//! as this HTML was (`wtround edit TITLE` where it is marked). README.md has the other commands.
#![tactic(auto)]

use std::env;
use std::io::ErrorKind;
use std::process::ExitCode;
use std::rt::Env;
use wt_devices::{DirFolder, StdSink, StdSource};
use wt_program::{run, tell_no_memory};
use wt_span::{List, NoMemory, Str};

/// The words after the program's name, or no words where one of them isn't UTF-8.
fn words_of(rt: &(impl Env + AllocGlobal)) -> Result<List<Str>, NoMemory> {
    let mut words = List::new(rt.alloc());
    match env::args(rt) {
        Ok(args) => {
            for arg in args.skip(1) {
                words.push(Str::from_string(arg))?;
            }
            Ok(words)
        }
        Err(e) => {
            if e.kind() == ErrorKind::OutOfMemory {
                return Err(NoMemory);
            }
            Ok(words)
        }
    }
}

fn main(rt: HostRuntime) -> ExitCode {
    let mut err = StdSink::new(rt.stderr());
    let Ok(words) = words_of(&rt) else {
        return ExitCode::from(tell_no_memory(&mut err).code());
    };
    let mut input = StdSource::new(rt.stdin());
    let mut folder = DirFolder::new(&rt, "pages");
    let mut out = StdSink::new(rt.stdout());
    ExitCode::from(run(
        rt.alloc(),
        &words,
        &mut input,
        &mut folder,
        &mut out,
        &mut err,
    ))
}
