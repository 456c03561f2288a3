ghost use Rattle.std.specs.Prelude.{◌≡◌, ◌<◌, ◌≤◌, length, IfOk, OnOk, OnErr};
ghost use Rattle.std.specs.Io.KnownBytes.{WriteAppends};
ghost use Rattle.outside.specs.Count.{next_count, Rose};

use crate::sink::{Sink, SinkFailed};
use std::io::Write;
use std::marker::Model;

/// A sink over a writer of std. It buffers nothing and tells no bytes.
///
/// Contracts see it as the writer, with the number of writes that failed.
#[derive(Drop)]
pub struct WriterSink<W> {
    writer: W,
    faults: u64,
}

impl<W> Model for WriterSink<W> {
    ghost use Rattle.outside.specs.WriterWithFaults.{WriterWithFaults, writer_with_faults_code};

    ghost Value = { WriterWithFaults W };

    ghost coded = { writer_with_faults_code W.code };

    ghost view = { λ s. record { writer = s.writer; faults = s.faults } };
}

impl<W> WriterSink<W> {
    /// A sink over `writer` that has not failed.
    pub fn new(writer: W) -> WriterSink<W>
        ensures { result ≡ record { writer = writer; faults = 0 } }
    {
        WriterSink { writer, faults: 0 }
    }
}

impl<W: Write> Sink for WriterSink<W> {
    ghost use Rattle.std.specs.Prelude.{None};

    ghost contents = { λ _. None };

    ghost faults = { λ s. s.faults };

    /// One write of the writer. It fails where the writer fails, and where the writer takes no byte
    /// of a piece that has some.
    fn write(&mut self, piece: &[u8]) -> Result<usize, SinkFailed>
        // What every sink keeps.
        ensures bound { IfOk result (λ n. n ≤ length piece.now) }
        ensures taken { IfOk result (λ n. 0 < length piece.now → 0 < n) }
        ensures later { self.old.faults ≤ self.new.faults }
        ensures failed { OnErr result (Rose self.old.faults self.new.faults) }

        // What the writer tells grows by what was taken, and failures are counted and no others.
        ensures written { WriteAppends (W.contents self.old.writer) (W.contents self.new.writer) result piece.now }
        ensures ok { OnOk result (self.new.faults ≡ self.old.faults) }
        ensures err { OnErr result (self.new.faults ≡ next_count self.old.faults) }
    {
        match self.writer.write(piece) {
            Ok(taken) if taken > 0 || piece.is_empty() => Ok(taken),
            _ => {
                self.faults = self.faults.saturating_add(1);
                Err(SinkFailed)
            }
        }
    }
}
