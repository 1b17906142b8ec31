// Writing all bytes to a sink.
ghost use Rattle.std.specs.Prelude.{OnOk, OnErr};
ghost use Rattle.std.specs.Io.KnownBytes.{Appends};
ghost use Rattle.host_io.specs.Outside.{Rose};
ghost use Rattle.run_ends.specs.Sent.{Sent};

use host_io::{Failed, Sink};

/// Offers all that is left, until all is taken or a write fails.
pub fn send<K: Sink>(sink: &mut K, bytes: &[u8]) -> Result<(), Failed>
    ensures sent { Sent (K.written sink.old) (K.written sink.new) (K.faults sink.old) (K.faults sink.new) bytes.now }
    ensures ok { OnOk result (Appends (K.written sink.old) (K.written sink.new) bytes.now) }
    ensures err { OnErr result (Rose (K.faults sink.old) (K.faults sink.new)) }
{
    let mut sent = 0;
    while sent < bytes.len() {
        sent += sink.write(&bytes[sent..])?;
    }
    Ok(())
}
