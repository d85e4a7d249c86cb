//! Writing bytes whole to a sink.
ghost use Rattle.std.specs.Prelude.{◌≡◌, OnOk, OnErr};
ghost use Rattle.screen_io.specs.Faults.{CountsFailure};
ghost use Rattle.screen_io.specs.Sink.{Gains, GainsPrefix};

use crate::sink::Sink;
use crate::source::Failed;

/// Writes all bytes, then hands on what is buffered. It takes no memory.
///
/// After a failure the sink holds a part of the bytes, from their beginning.
pub fn write_all_of<K: Sink>(sink: &mut K, bytes: &[u8]) -> Result<(), Failed>
    ensures whole { OnOk result (Gains (K.held sink.old) bytes.now (K.held sink.new)) }
    ensures part { OnErr result (GainsPrefix (K.held sink.old) bytes.now (K.held sink.new)) }
    ensures cause { CountsFailure (K.faults sink.old) (K.faults sink.new) result }
    ensures unfailed { OnOk result (K.faults sink.new ≡ K.faults sink.old) }
{
    let mut done = 0;
    while done < bytes.len() {
        done += sink.write(&bytes[done..])?;
    }
    sink.finish()
}
