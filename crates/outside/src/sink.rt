ghost use Rattle.std.specs.Prelude.{◌≡◌, ℕ, ◌<◌, ◌≤◌, List, Option, length, IfOk, OnOk, OnErr};
ghost use Rattle.std.specs.Io.KnownBytes.{Appends, WriteAppends};
ghost use Rattle.outside.specs.Bytes.{AppendsPart};
ghost use Rattle.outside.specs.Count.{Rose};

/// A sink took no byte of a piece that has some.
#[derive(Clone, Copy, Debug, PartialEq, Eq)]
pub struct SinkFailed;

/// Something that bytes are written to.
pub trait Sink {
    /// The bytes written so far, where the sink tells them.
    ghost contents: { Self → Option (List ℕ) };

    /// How many writes have failed; it stands still at 2^64 - 1.
    ghost faults: { Self → ℕ };

    /// Appends the first bytes of `piece`, at least one where it has any, and answers how many.
    fn write(&mut self, piece: &[u8]) -> Result<usize, SinkFailed>
        ensures bound { IfOk result (λ n. n ≤ length piece.now) }
        ensures taken { IfOk result (λ n. 0 < length piece.now → 0 < n) }
        ensures bytes { WriteAppends (contents self.old) (contents self.new) result piece.now }
        ensures later { faults self.old ≤ faults self.new }
        ensures failed { OnErr result (Rose (faults self.old) (faults self.new)) };
}

/// Writes all of `piece`, in as many calls as that takes. After an error the sink has got a prefix.
pub fn write_whole<S: Sink>(sink: &mut S, piece: &[u8]) -> Result<(), SinkFailed>
    ensures whole { OnOk result (Appends (S.contents sink.old) (S.contents sink.new) piece.now) }
    ensures part { OnErr result (AppendsPart (S.contents sink.old) (S.contents sink.new) piece.now) }
    ensures later { S.faults sink.old ≤ S.faults sink.new }
    ensures failed { OnErr result (Rose (S.faults sink.old) (S.faults sink.new)) }
{
    let mut rest = piece;
    while !rest.is_empty() {
        let taken = sink.write(rest)?;
        rest = &rest[taken..];
    }
    Ok(())
}
