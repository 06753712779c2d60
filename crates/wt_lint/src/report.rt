//! The lines of `lint`.

ghost use Rattle.std.specs.Prelude.{◌≡◌, ◌++◌, map, IfOk, OnOk};
ghost use Rattle.wt_lint.specs.Lines.{as_located};
ghost use Rattle.wt_lint.specs.Report.{finding_lines, line, next_number};

use crate::finding::Finding;
use std::alloc::Global;
use wt_devices::{push, push_number};
use wt_span::{List, NoMemory};

/// Appends a blank and a number.
fn push_next(out: &mut Vec<u8>, number: u32) -> Result<(), NoMemory>
    ensures { OnOk result (out.new.items ≡ out.old.items ++ next_number number) }
{
    push(out, b" ")?;
    push_number(out, number)?;
    Ok(())
}

/// Appends the line of a finding.
#[tactic(auto, unfolding(crate::specs::Report::line))]
fn push_line(out: &mut Vec<u8>, finding: Finding) -> Result<(), NoMemory>
    ensures { OnOk result (out.new.items ≡ out.old.items ++ line (as_located finding)) }
{
    push(out, finding.kind.word())?;
    push_next(out, finding.line)?;
    push_next(out, finding.column)?;
    push_next(out, finding.at.start)?;
    push_next(out, finding.at.end)?;
    push(out, b"\n")?;
    Ok(())
}

/// The lines of findings: for each `KIND LINE COLUMN START END` and a line break. The numbers are decimal,
/// places are bytes.
pub fn finding_lines(alloc: Global, findings: &[Finding]) -> Result<List<u8>, NoMemory>
    ensures { IfOk result (λ bytes. bytes ≡ finding_lines (map as_located findings.now)) }
{
    let mut out = Vec::new(alloc);
    for finding in findings {
        push_line(&mut out, *finding)?;
    }
    Ok(List::from_vec(out))
}
