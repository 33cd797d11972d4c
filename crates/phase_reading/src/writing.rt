//! Writing the output.

ghost use Rattle.std.specs.Prelude.{◌≡◌, ℕ, ◌≤◌, take, OnOk, OnErr};
ghost use Rattle.std.specs.Io.KnownBytes.{Appends};
ghost use Rattle.manu_edge.specs.Faults.{Rose};

use manu_edge::{Failed, Sink};

// Writes all of `bytes`. Where the sink fails, the first so many of them are written.
pub fn write_all<O: Sink>(sink: &mut O, bytes: &[u8]) -> Result<(), Failed>
    ensures later { O.faults sink.old ≤ O.faults sink.new }
    ensures all { OnOk result (Appends (O.written sink.old) (O.written sink.new) bytes.now) }
    ensures front { OnErr result ((n : ℕ) × Appends (O.written sink.old) (O.written sink.new) (take n bytes.now)) }
    ensures cause { OnErr result (Rose (O.faults sink.old) (O.faults sink.new)) }
{
    let mut at = 0;
    'pieces: while at < bytes.len() {
        let count = sink.write(&bytes[at..])?;
        if count == 0 {
            return Err(Failed);
        }
        at += count;
    }
    Ok(())
}
