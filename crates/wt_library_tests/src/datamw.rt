//! Texts of both attributes against cases whose answers two independent programs gave.
use std::alloc::Global;
use std::process::Abort;
use wt_datamw::{DataRefusal, DataWhy, read, read_sync, sync_to_text, to_text};
use wt_span::{NoMemory, Str};

/// A line each: a text of `data-mw`, and after an arrow what is written of the value that it gives,
/// or why it is refused.
static MW_CASES: &str = r#"{"parts":[]} => {"parts":[]}
{"parts":1} => Shape
{"parts":["a"]} => {"parts":["a"]}
{"parts":[{"param":{"wt":"{{{a}}}"}}]} => {"parts":[{"param":{"wt":"{{{a}}}"}}]}
{"parts":[{"template":{"i":0,"params":{},"target":{"href":"./Template:X","wt":"x"}}}]} => {"parts":[{"template":{"i":0,"params":{},"target":{"href":"./Template:X","wt":"x"}}}]}
{"parts":[{"template":{"params":{"b":{"wt":"1"},"a":{"wt":"2"}},"i":3,"target":{"wt":"x","href":"./Template:X"}}}]} => {"parts":[{"template":{"i":3,"params":{"a":{"wt":"2"},"b":{"wt":"1"}},"target":{"href":"./Template:X","wt":"x"}}}]}
{"name":"ref"} => {"name":"ref"}
{"name":"ref","body":{"extsrc":"x"}} => {"body":{"extsrc":"x"},"name":"ref"}
{"name":"ref","body":{}} => Shape
{"name":1} => Shape
{} => Shape
[] => Shape
1 => Shape
"a" => Shape
null => Shape
 => Json
{ => Json
{"parts":[],"x":1} => Shape
{"parts":[{"template":{"i":-1,"params":{},"target":{"href":"a","wt":"b"}}}]} => Number
{"parts":[{"template":{"i":1.0,"params":{},"target":{"href":"a","wt":"b"}}}]} => Number
{"parts":[{"template":{"i":4294967296,"params":{},"target":{"href":"a","wt":"b"}}}]} => Number
{"parts":[{"template":{"i":4294967295,"params":{},"target":{"href":"a","wt":"b"}}}]} => {"parts":[{"template":{"i":4294967295,"params":{},"target":{"href":"a","wt":"b"}}}]}
{"parts":[{"template":{"i":"0","params":{},"target":{"href":"a","wt":"b"}}}]} => Shape
 { "parts" : [ ] }  => {"parts":[]}
{"parts":[]}x => Json
{"parts":[],} => Json
{'parts':[]} => Json
{"parts":["\u00e9\n\"\\\/"]} => {"parts":["é\n\"\\/"]}
{"parts":["\ud800"]} => Json
{"parts":["a"],"parts":["b"]} => {"parts":["b"]}
{"parts":[{"param":{"wt":"a"},"x":1}]} => Shape
{"parts":[[]]} => Shape
{"parts":[true]} => Shape
{"parts":[{"template":{"i":1.5,"params":{},"target":{"href":"a","wt":"b"}}},[]]} => Shape
{"parts":[{"template":{"i":0,"params":{"1":{"wt":" c "},"é":{"wt":""}},"target":{"href":"./Template:X","wt":"x "}}},"\n",{"param":{"wt":"{{{1}}}"}}]} => {"parts":[{"template":{"i":0,"params":{"1":{"wt":" c "},"é":{"wt":""}},"target":{"href":"./Template:X","wt":"x "}}},"\n",{"param":{"wt":"{{{1}}}"}}]}
{"name":"ref","body":{"extsrc":""}} => {"body":{"extsrc":""},"name":"ref"}
{"name":"ref","body":null} => Shape
{"name":"ref","parts":[]} => Shape"#;

/// The same of `data-parsoid`.
static SYNC_CASES: &str = r#"{"dsr":[0,1,0,0]} => {"dsr":[0,1,0,0]}
{"dsr":[0,1,0]} => Shape
{"dsr":[0,1,0,0,0]} => Shape
{"dsr":[0,1,0,-1]} => Number
{"dsr":[0,1,0,1e2]} => Number
{"dsr":[0,1,0,"0"]} => Shape
{"dsr":[0,1,0,0],"o":"","c":""} => {"dsr":[0,1,0,0]}
{"c":" ==","dsr":[0,7,3,3],"o":"== "} => {"c":" ==","dsr":[0,7,3,3],"o":"== "}
{"dsr":[0,1,1,0],"src":"x"} => {"dsr":[0,1,1,0],"src":"x"}
{"dsr":[0,1,1,0],"src":1} => Shape
{"dsr":[0,1,1,0],"y":1} => Shape
{"o":"a"} => Shape
{"dsr":[0,4294967295,0,0]} => {"dsr":[0,4294967295,0,0]}
{"dsr":[0,4294967296,0,0]} => Number
{"dsr":[00,1,0,0]} => Json
{"dsr":[0,1,0,0] => Json
{"dsr":{}} => Shape
[0,1,0,0] => Shape"#;

fn word_of(why: DataWhy) -> &'static str {
    match why {
        DataWhy::Json => "Json",
        DataWhy::Shape => "Shape",
        DataWhy::Number => "Number",
    }
}

fn refused(alloc: Global, refusal: DataRefusal) -> Result<Str, NoMemory> {
    match refusal {
        DataRefusal::BadData(why) => Str::copy_of(alloc, word_of(why)),
        DataRefusal::NoMemory => Err(NoMemory),
    }
}

fn mw_answer(alloc: Global, text: &str) -> Result<Str, NoMemory> {
    match read(alloc, text) {
        Ok(value) => to_text(alloc, &value),
        Err(refusal) => refused(alloc, refusal),
    }
}

fn sync_answer(alloc: Global, text: &str) -> Result<Str, NoMemory> {
    match read_sync(alloc, text) {
        Ok(value) => sync_to_text(alloc, &value),
        Err(refusal) => refused(alloc, refusal),
    }
}

/// The text of a line, and what is wanted.
fn case_of(line: &str) -> (&str, &str) {
    line.split_once(" => ").unwrap_or((line, ""))
}

fn check_mw(rt: &(impl Abort + AllocGlobal), line: &str) -> Result<(), NoMemory> {
    let (text, wanted) = case_of(line);
    let answer = mw_answer(rt.alloc(), text)?;
    assert_eq!(rt; answer.as_str(), wanted, "{text}");
    Ok(())
}

fn check_sync(rt: &(impl Abort + AllocGlobal), line: &str) -> Result<(), NoMemory> {
    let (text, wanted) = case_of(line);
    let answer = sync_answer(rt.alloc(), text)?;
    assert_eq!(rt; answer.as_str(), wanted, "{text}");
    Ok(())
}

#[test]
fn texts_are_read_and_written_again(rt: HostRuntime) -> Result<(), NoMemory> {
    for line in MW_CASES.lines() {
        check_mw(&rt, line)?;
    }
    for line in SYNC_CASES.lines() {
        check_sync(&rt, line)?;
    }
    Ok(())
}
