ghost use Rattle.std.specs.Prelude.{◌≡◌, ◌≤◌, length, take, OnOk, OnErr, IfErr};
ghost use Rattle.std.specs.Io.KnownBytes.{Appends};
ghost use Rattle.wt_devices.specs.Device.{Rose};

use crate::device::Sink;
use wt_span::rest_of;

/// Writes all of the bytes to a sink, in as many calls as it takes. An `Err` has the number of those
/// that it took before it failed.
pub fn write_all<W: Sink>(out: &mut W, bytes: &[u8]) -> Result<(), usize>
    ensures all { OnOk result (Appends (W.taken out.old) (W.taken out.new) bytes.now) }
    ensures front { IfErr result (λ n. Appends (W.taken out.old) (W.taken out.new) (take n bytes.now)) }
    ensures within { IfErr result (λ n. n ≤ length bytes.now) }
    ensures kept { OnOk result (W.fault_count out.new ≡ W.fault_count out.old) }
    ensures cause { OnErr result (Rose (W.fault_count out.old) (W.fault_count out.new)) }
{
    let mut done = 0;
    while done < bytes.len() {
        match out.write(rest_of(bytes, done)) {
            Ok(0) => return Err(done),
            Ok(count) => done += count,
            Err(_) => return Err(done),
        }
    }
    Ok(())
}
