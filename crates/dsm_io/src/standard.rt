ghost use Rattle.std.specs.Prelude.{◌≡◌, ℕ, ◌<◌, ◌≤◌, None, length, IfOk, OnErr};
ghost use Rattle.std.specs.Io.KnownBytes.{Keeps, ReadConsumes, WriteAppends};
ghost use Rattle.dsm_io.specs.Faults.{Rose};

use crate::sink::Sink;
use crate::source::{Failed, Source};
use std::io::{Read, Write};
use std::marker::Model;

/// A source over a reader of std, as standard input. Each error of the reader raises its count of
/// faults. It tells the bytes that the reader tells: a reader over memory does, standard input doesn't.
#[derive(Drop)]
pub struct StdSource<T: Read + Drop> {
    reader: T,
    faults: u64,
}

impl<T: Read + Drop> Model for StdSource<T> {
    ghost use Rattle.dsm_io.specs.Standard.{ReaderSource};

    ghost Value = { ReaderSource };

    ghost view = { λ s. record { left = T.remaining s.reader; faults = s.faults } };
}

impl<T: Read + Drop> StdSource<T> {
    /// A source over this reader, which hasn't failed yet.
    pub fn new(reader: T) -> StdSource<T>
        ensures { result ≡ record { left = T.remaining reader; faults = 0 } }
    {
        StdSource { reader, faults: 0 }
    }
}

impl<T: Read + Drop> Source for StdSource<T> {
    ghost left = { λ s. s.left };

    ghost faults = { λ s. s.faults };

    fn read(&mut self, buf: &mut [u8]) -> Result<usize, Failed> {
        match self.reader.read(buf) {
            Ok(count) => Ok(count),
            Err(_) => {
                self.faults = self.faults.saturating_add(1);
                Err(Failed)
            }
        }
    }
}

/// A sink over a writer of std, as standard output. Each error of the writer raises its count of
/// faults, and so does a write that takes nothing of a piece that is not empty. It tells the bytes that
/// the writer tells: a writer over memory does, standard output doesn't. It doesn't tell which of them
/// were handed on, since no writer of std does.
#[derive(Drop)]
pub struct StdSink<T: Write + Drop> {
    writer: T,
    faults: u64,
}

impl<T: Write + Drop> Model for StdSink<T> {
    ghost use Rattle.dsm_io.specs.Standard.{WriterSink};

    ghost Value = { WriterSink };

    ghost view = { λ s. record { written = T.contents s.writer; faults = s.faults } };
}

impl<T: Write + Drop> StdSink<T> {
    /// A sink over this writer, which hasn't failed yet.
    pub fn new(writer: T) -> StdSink<T>
        ensures { result ≡ record { written = T.contents writer; faults = 0 } }
    {
        StdSink { writer, faults: 0 }
    }

    fn fail(&mut self) -> Failed
        ensures written { self.new.written ≡ self.old.written }
        ensures rose { Rose self.old.faults self.new.faults }
        ensures counts { self.old.faults ≤ self.new.faults }
    {
        self.faults = self.faults.saturating_add(1);
        Failed
    }
}

impl<T: Write + Drop> Sink for StdSink<T> {
    ghost written = { λ s. s.written };

    ghost handed = { λ _. None };

    ghost faults = { λ s. s.faults };

    fn write(&mut self, piece: &[u8]) -> Result<usize, Failed> {
        match self.writer.write(piece) {
            Ok(count) if count > 0 || piece.is_empty() => Ok(count),
            _ => Err(self.fail()),
        }
    }

    fn finish(&mut self) -> Result<(), Failed> {
        match self.writer.flush() {
            Ok(()) => Ok(()),
            Err(_) => Err(self.fail()),
        }
    }
}

#[cfg(test)]
mod tests {
    use super::*;
    use std::io;
    use std::test::Fail;

    // A reader and writer that always fails.
    #[derive(Drop)]
    struct Broken;

    impl Read for Broken {
        fn read(&mut self, _buf: &mut [u8]) -> io::Result<usize> {
            Err(io::Error::from(io::ErrorKind::BrokenPipe))
        }
    }

    impl Write for Broken {
        fn write(&mut self, _buf: &[u8]) -> io::Result<usize> {
            Err(io::Error::from(io::ErrorKind::BrokenPipe))
        }

        fn flush(&mut self) -> io::Result<()> {
            Err(io::Error::from(io::ErrorKind::BrokenPipe))
        }
    }

    // A writer that gives out only what was flushed.
    #[derive(Drop)]
    struct Holding {
        held: Vec<u8>,
        out: Vec<u8>,
    }

    impl Write for Holding {
        fn write(&mut self, buf: &[u8]) -> io::Result<usize> {
            self.held.extend_from_slice(buf)?;
            Ok(buf.len())
        }

        fn flush(&mut self) -> io::Result<()> {
            self.out.extend_from_slice(self.held.as_slice())?;
            self.held.clear();
            Ok(())
        }
    }

    #[test]
    fn finishes_by_flushing(rt: HostRuntime) -> Result<(), Fail> {
        let mut sink = StdSink::new(Holding {
            held: Vec::new(rt.alloc()),
            out: Vec::new(rt.alloc()),
        });
        assert_eq!(rt; sink.write(&[5, 6]), Ok(2));
        assert_eq!(rt; sink.finish(), Ok(()));
        assert_eq!(rt; sink.writer.out.as_slice(), [5u8, 6].as_slice());
        Ok(())
    }

    #[test]
    fn passes_bytes_on(rt: HostRuntime) -> Result<(), Fail> {
        let bytes = [5u8, 6, 7];
        let mut source = StdSource::new(bytes.as_slice());
        let mut buf = [0u8; 2];
        assert_eq!(rt; source.read(&mut buf), Ok(2));
        assert_eq!(rt; buf, [5, 6]);
        assert_eq!(rt; source.read(&mut buf), Ok(1));
        assert_eq!(rt; source.read(&mut buf), Ok(0));
        let mut sink = StdSink::new(Vec::new(rt.alloc()));
        assert_eq!(rt; sink.write(&bytes), Ok(3));
        assert_eq!(rt; sink.finish(), Ok(()));
        assert_eq!(rt; sink.writer.as_slice(), bytes.as_slice());
        Ok(())
    }

    #[test]
    fn counts_errors(rt: HostRuntime) {
        let mut source = StdSource::new(Broken);
        assert_eq!(rt; source.read(&mut [0u8; 2]), Err(Failed));
        assert_eq!(rt; source.faults, 1);
        let mut sink = StdSink::new(Broken);
        assert_eq!(rt; sink.write(&[5]), Err(Failed));
        assert_eq!(rt; sink.finish(), Err(Failed));
        assert_eq!(rt; sink.faults, 2);
    }
}
