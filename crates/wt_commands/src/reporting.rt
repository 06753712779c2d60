ghost use Rattle.std.specs.Prelude.{◌⊎◌};
ghost use Rattle.wt_commands.specs.Devices.{written_to};
ghost use Rattle.wt_commands.specs.Reports.{Gave, WroteLine, Reported};

use crate::output::Output;
use crate::refusal::{Refusal, line_of, no_memory_line, write_fault_line};
use crate::status::Status;
use crate::write::write_all;
use std::alloc::Global;
use wt_devices::Sink;

/// Writes an answer to `out`, and the line of a write fault to `err` where `out` fails.
fn give<W: Sink, E: Sink>(bytes: &[u8], out: &mut W, err: &mut E) -> Status
    ensures { Gave bytes.now result (written_to W.Sink out.old out.new) (written_to E.Sink err.old err.new) }
{
    if write_all(out, bytes).is_ok() {
        return Status::Done;
    }
    let _ = write_all(err, write_fault_line());
    Status::WriteFault
}

/// Writes the line of want of memory to `err`, also for a program that has no memory for its words. Says
/// how the call ends.
pub fn tell_no_memory<E: Sink>(err: &mut E) -> Status
    ensures { WroteLine Refusal.NoMemory result (written_to E.Sink err.old err.new) }
{
    match write_all(err, no_memory_line()) {
        Ok(()) => Status::NoMemory,
        Err(_) => Status::WriteFault,
    }
}

/// Writes the line of a refusal to `err`, or that of want of memory where there is none for the line.
fn refuse<E: Sink>(alloc: Global, refusal: Refusal, err: &mut E) -> Status
    ensures { WroteLine refusal result (written_to E.Sink err.old err.new)
        ⊎ WroteLine Refusal.NoMemory result (written_to E.Sink err.old err.new) }
{
    match line_of(alloc, &refusal) {
        Ok(line) => match write_all(err, line.as_bytes()) {
            Ok(()) => refusal.status(),
            Err(_) => Status::WriteFault,
        },
        Err(_) => tell_no_memory(err),
    }
}

/// Writes what was found: an answer to `out`, or the line of a refusal to `err`. Says how the call ends.
pub fn report<W: Sink, E: Sink>(
    alloc: Global,
    found: Result<Output, Refusal>,
    out: &mut W,
    err: &mut E,
) -> Status
    ensures { Reported found result (written_to W.Sink out.old out.new) (written_to E.Sink err.old err.new) }
{
    match found {
        Ok(output) => give(output.as_bytes(), out, err),
        Err(refusal) => refuse(alloc, refusal, err),
    }
}
