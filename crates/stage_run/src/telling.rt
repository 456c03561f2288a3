ghost use Rattle.std.specs.Prelude.{◌≡◌, ◌≤◌, OnOk, OnErr, IfErr};
ghost use Rattle.std.specs.Io.KnownBytes.{Appends};
ghost use Rattle.outside.specs.Bytes.{AppendsPart};
ghost use Rattle.outside.specs.Count.{Rose};
ghost use Rattle.stage_run.specs.declared.status.Status.TheVariants as statuses;

use crate::status::Status;
use outside::{Sink, write_whole};

/// Writes what is noted. It fails with `WriteFault` where the sink doesn't take it whole.
pub fn write_notes<N: Sink>(bytes: &[u8], notes: &mut N) -> Result<(), Status>
    ensures later { N.faults notes.old ≤ N.faults notes.new }
    ensures whole { OnOk result (Appends (N.contents notes.old) (N.contents notes.new) bytes.now) }
    ensures part { OnErr result (AppendsPart (N.contents notes.old) (N.contents notes.new) bytes.now) }
    ensures failed { OnErr result (Rose (N.faults notes.old) (N.faults notes.new)) }
    ensures status { IfErr result (λ status. status ≡ statuses.WriteFault) }
{
    match write_whole(notes, bytes) {
        Ok(()) => Ok(()),
        Err(_) => Err(Status::WriteFault),
    }
}
