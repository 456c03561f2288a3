ghost use Rattle.std.specs.Prelude.{◌≡◌, ◌≤◌, [], OnOk, IfErr};
ghost use Rattle.std.specs.Io.KnownBytes.{Appends};
ghost use Rattle.rect_raster.specs.Picture.{ppm};
ghost use Rattle.stage_run.specs.Flaws.{StopsWriting};
ghost use Rattle.stage_run.specs.Moves.{commands};
ghost use Rattle.stage_run.specs.Written.{copies};

use crate::journal::{Journal, Move};
use crate::status::Status;
use outside::Sink;
use rect_raster::{Canvas, write_ppm};

/// Applies `count` frame commands: each joins the journal, and then its image is written. It stops at
/// the first image that the sink doesn't take whole, with `WriteFault`, and with `NoMemory` where the
/// journal has no room.
pub fn write_frames<S: Sink>(
    canvas: &Canvas,
    count: u32,
    journal: &mut Journal,
    frames: &mut S,
) -> Result<(), Status>
    requires { journal.old ≡ [] }
    ensures later { S.faults frames.old ≤ S.faults frames.new }
    ensures moves { OnOk result (journal.new ≡ commands count) }
    ensures bytes { OnOk result (Appends (S.contents frames.old) (S.contents frames.new) (copies (ppm canvas.now) count)) }
    ensures stopped { IfErr result (StopsWriting (ppm canvas.now) count journal.new (S.contents frames.old)
        (S.contents frames.new) (S.faults frames.old) (S.faults frames.new)) }
{
    for done in 0..count {
        journal.push(Move::Command(done + 1))?;
        match write_ppm(canvas, frames) {
            Ok(()) => {}
            Err(_) => return Err(Status::WriteFault),
        }
    }
    Ok(())
}
