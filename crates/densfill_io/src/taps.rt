//! Taps in front of readers and writers.
ghost use Rattle.std.specs.Prelude.{◌≡◌, ◌||◌, ◌↔◌, false, is_err, IsErrAnd, IsTrue};
ghost use Rattle.std.specs.IoError.{error_kind};
ghost use Rattle.std.specs.Io.{ReadsAtMost, WritesAtMost};
ghost use Rattle.std.specs.Io.KnownBytes.{Keeps, ReadConsumes, WriteAppends};

use std::io;
use std::io::{ErrorKind, Read, Write};

/// How often a call that a signal interrupts is made again.
const TRIES: u32 = 1 << 20;

/// Whether a signal interrupted a call, which is then to be tried again.
fn is_interrupted<T>(done: &io::Result<T>) -> bool
    ensures { IsTrue result ↔ IsErrAnd done.now (λ e. error_kind e ≡ ErrorKind.Interrupted) }
{
    match done {
        Ok(_) => false,
        Err(error) => error.kind() == ErrorKind::Interrupted,
    }
}

/// A reader or a writer that remembers whether one of its calls has failed. A call that a signal interrupts is tried again.
#[derive(Drop)]
pub struct Tap<T> {
    inner: T,
    failed: bool,
}

impl<T> Tap<T> {
    ghost use Rattle.densfill_io.specs.Taps.{has_failed, under};

    /// A tap in front of `inner`, which has not failed.
    pub fn new(inner: T) -> Self
        ensures inner { under result ≡ inner }
        ensures whole { has_failed result ≡ false }
    {
        Tap {
            inner,
            failed: false,
        }
    }

    /// Whether a call has failed, or a write has taken no byte out of some.
    pub fn failed(&self) -> bool
        ensures { result ≡ has_failed self.now }
    {
        self.failed
    }
}

impl<R: Read> Read for Tap<R> {
    ghost use Rattle.densfill_io.specs.Taps.{has_failed, under};

    ghost remaining = { λ tap. R.remaining (under tap) };

    /// Passes the read on, again where a signal interrupts it.
    fn read(&mut self, buf: &mut [u8]) -> io::Result<usize>
        ensures bound { ReadsAtMost result buf.new }
        ensures bytes { ReadConsumes (R.remaining (under self.old)) (R.remaining (under self.new)) result buf.new }
        ensures failed { has_failed self.new ≡ has_failed self.old || is_err result }
    {
        let mut read = self.inner.read(buf);
        'trying: for _ in 0..TRIES {
            if !is_interrupted(&read) {
                break;
            }
            read = self.inner.read(buf);
        }
        self.failed = self.failed || read.is_err();
        read
    }
}

impl<W: Write> Write for Tap<W> {
    ghost use Rattle.densfill_io.specs.Taps.{has_failed, is_refused, under};

    ghost contents = { λ tap. W.contents (under tap) };

    /// Passes the write on, again where a signal interrupts it.
    fn write(&mut self, buf: &[u8]) -> io::Result<usize>
        ensures bound { WritesAtMost result buf.now }
        ensures bytes { WriteAppends (W.contents (under self.old)) (W.contents (under self.new)) result buf.now }
        ensures failed { has_failed self.new ≡ has_failed self.old || is_refused buf.now result }
    {
        let mut written = self.inner.write(buf);
        'trying: for _ in 0..TRIES {
            if !is_interrupted(&written) {
                break;
            }
            written = self.inner.write(buf);
        }
        let refused = match written {
            Ok(count) => count == 0 && !buf.is_empty(),
            Err(_) => true,
        };
        self.failed = self.failed || refused;
        written
    }

    /// Passes the flush on.
    fn flush(&mut self) -> io::Result<()>
        ensures bytes { Keeps (W.contents (under self.old)) (W.contents (under self.new)) }
        ensures failed { has_failed self.new ≡ has_failed self.old || is_err result }
    {
        let flushed = self.inner.flush();
        self.failed = self.failed || flushed.is_err();
        flushed
    }
}
