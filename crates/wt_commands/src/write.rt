ghost use Rattle.std.specs.Prelude.{OnOk, OnErr};
ghost use Rattle.wt_commands.specs.Devices.{written_to, Took, FailedAfter};

use wt_devices::{Failed, Sink};

/// Writes all of the bytes. After an `Err` the sink has taken a front of them.
pub fn write_all<W: Sink>(out: &mut W, bytes: &[u8]) -> Result<(), Failed>
    ensures ok { OnOk result (Took (written_to W.Sink out.old out.new) bytes.now) }
    ensures err { OnErr result (FailedAfter (written_to W.Sink out.old out.new) bytes.now) }
{
    match wt_devices::write_all(out, bytes) {
        Ok(()) => Ok(()),
        Err(_) => Err(Failed),
    }
}
