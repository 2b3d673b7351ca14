ghost use Rattle.std.specs.Prelude.{◌≡◌, ◌≤◌, OnOk, OnErr};
ghost use Rattle.std.specs.Io.KnownBytes.{Appends};
ghost use Rattle.dsm_io.specs.Faults.{Rose};
ghost use Rattle.dsm_io.specs.Whole.{AppendsPrefix, HandsOnAll};

use crate::sink::Sink;
use crate::source::Failed;

/// Writes all bytes in order, and then finishes. Where it fails, a prefix of them was written. It
/// takes no memory.
pub fn write_all<K: Sink>(sink: &mut K, bytes: &[u8]) -> Result<(), Failed>
    ensures ok { OnOk result (Appends (K.written sink.old) (K.written sink.new) bytes.now) }
    ensures handed { OnOk result (HandsOnAll (K.handed sink.new) (K.written sink.new)) }
    ensures well { OnOk result (K.faults sink.new ≡ K.faults sink.old) }
    ensures prefix { OnErr result (AppendsPrefix (K.written sink.old) (K.written sink.new) bytes.now) }
    ensures failed { OnErr result (Rose (K.faults sink.old) (K.faults sink.new)) }
    ensures counts { K.faults sink.old ≤ K.faults sink.new }
{
    let mut at = 0;
    while at < bytes.len() {
        at += sink.write(&bytes[at..])?;
    }
    sink.finish()
}
