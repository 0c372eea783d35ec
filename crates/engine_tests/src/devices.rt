//! Taps, inputs and texts over devices in memory that move few bytes, and that fail for ever or once.
use densfill_io::{
    DeviceError, InputError, Tap, read_input, write_settled, write_text, write_texts,
};
use std::alloc::{AllocError, Global};
use std::io;
use std::io::{ErrorKind, Read, Write};
use std::test::Fail;

/// A device in memory that moves at most `step` bytes a call, and fails once so many calls have gone well.
#[derive(Drop)]
pub(crate) struct Slow<'a> {
    rest: &'a [u8],
    taken: Vec<u8>,
    step: usize,
    good_calls: Option<usize>,
}

/// A device that gives all of a text at its first call, and fails at the next.
pub(crate) fn broken_off(alloc: Global, text: &[u8]) -> Slow<'_> {
    Slow {
        rest: text,
        taken: Vec::new(alloc),
        step: text.len(),
        good_calls: Some(1),
    }
}

impl Slow<'_> {
    fn turn(&mut self) -> io::Result<()> {
        if let Some(left) = self.good_calls {
            if left == 0 {
                return Err(io::Error::from(ErrorKind::ConnectionReset));
            }
            self.good_calls = Some(left - 1);
        }
        Ok(())
    }
}

impl Read for Slow<'_> {
    fn read(&mut self, buf: &mut [u8]) -> io::Result<usize> {
        self.turn()?;
        let count = buf.len().min(self.rest.len()).min(self.step);
        buf[..count].copy_from_slice(&self.rest[..count]);
        self.rest = &self.rest[count..];
        Ok(count)
    }
}

impl Write for Slow<'_> {
    fn write(&mut self, buf: &[u8]) -> io::Result<usize> {
        self.turn()?;
        let count = buf.len().min(self.step);
        self.taken.extend_from_slice(&buf[..count])?;
        Ok(count)
    }

    fn flush(&mut self) -> io::Result<()> {
        self.turn()
    }
}

#[test]
fn an_input_is_read_up_to_its_limit(rt: HostRuntime) -> Result<(), Fail> {
    for (bytes, limit, fits) in [
        (b"abcd".as_slice(), 4, true),
        (b"abcde", 4, false),
        (b"", 0, true),
        (b"a", 0, false),
    ] {
        for step in [1, 3, 5000] {
            let mut tap = Tap::new(Slow {
                rest: bytes,
                taken: Vec::new(rt.alloc()),
                step,
                good_calls: None,
            });
            match read_input(rt.alloc(), &mut tap, limit) {
                Ok(input) => assert!(rt; fits && input.as_slice() == bytes, "{limit} of {bytes:?}"),
                Err(error) => assert!(rt;
                    !fits && error == InputError::TooLong,
                    "{limit} of {bytes:?}"
                ),
            }
            assert!(rt; !tap.failed());
        }
    }
    Ok(())
}

#[test]
fn a_long_input_comes_whole(rt: HostRuntime) -> Result<(), Fail> {
    let bytes: Vec<u8> = (0..200_000u32)
        .map(|i| (i % 251) as u8)
        .collect(rt.alloc())?;
    let mut tap = Tap::new(bytes.as_slice());
    let input = read_input(rt.alloc(), &mut tap, 200_000)?;
    assert!(rt; input.as_slice() == bytes.as_slice());
    Ok(())
}

#[test]
fn a_failed_read_is_a_device_fault(rt: HostRuntime) {
    for good_calls in 0..5 {
        let good_calls = Some(good_calls);
        let mut tap = Tap::new(Slow {
            rest: b"abcd",
            taken: Vec::new(rt.alloc()),
            step: 1,
            good_calls,
        });
        let input = read_input(rt.alloc(), &mut tap, 4);
        assert!(rt; matches!(input, Err(InputError::Device)));
        assert!(rt; tap.failed());
    }
}

#[test]
fn a_text_is_written_whole(rt: HostRuntime) {
    let mut slow = Slow {
        rest: b"",
        taken: Vec::new(rt.alloc()),
        step: 3,
        good_calls: None,
    };
    let mut tap = Tap::new(&mut slow);
    assert_eq!(rt; write_text(&mut tap, b"eleven bytes"), Ok(()));
    assert!(rt; tap.flush().is_ok());
    assert!(rt; !tap.failed());
    assert!(rt; slow.taken.as_slice() == b"eleven bytes".as_slice());
}

#[test]
fn a_writer_that_fails_keeps_the_bytes_before(rt: HostRuntime) {
    for good_calls in 0..4 {
        let mut slow = Slow {
            rest: b"",
            taken: Vec::new(rt.alloc()),
            step: 1,
            good_calls: Some(good_calls),
        };
        let mut tap = Tap::new(&mut slow);
        assert_eq!(rt; write_text(&mut tap, b"text"), Err(DeviceError));
        assert!(rt; tap.failed());
        assert!(rt; slow.taken.as_slice() == b"text".get(..good_calls).unwrap_or(b""));
    }
}

/// Three texts, one of them empty, of seven bytes together.
fn three_texts(alloc: Global) -> Result<Vec<Vec<u8>>, AllocError> {
    let mut texts = Vec::new(alloc);
    for text in [b"four".as_slice(), b"", b"six"] {
        texts.push(text.to_vec(alloc)?)?;
    }
    Ok(texts)
}

#[test]
fn texts_are_written_one_after_another(rt: HostRuntime) -> Result<(), Fail> {
    let texts = three_texts(rt.alloc())?;
    let mut slow = Slow {
        rest: b"",
        taken: Vec::new(rt.alloc()),
        step: 3,
        good_calls: None,
    };
    let mut tap = Tap::new(&mut slow);
    assert_eq!(rt; write_texts(&mut tap, &texts), Ok(()));
    assert!(rt; !tap.failed());
    assert!(rt; slow.taken.as_slice() == b"foursix".as_slice());
    Ok(())
}

#[test]
fn no_text_is_written_after_a_fault(rt: HostRuntime) -> Result<(), Fail> {
    let texts = three_texts(rt.alloc())?;
    for good_calls in 0..7 {
        let mut slow = Slow {
            rest: b"",
            taken: Vec::new(rt.alloc()),
            step: 1,
            good_calls: Some(good_calls),
        };
        let mut tap = Tap::new(&mut slow);
        assert_eq!(rt; write_texts(&mut tap, &texts), Err(DeviceError));
        assert!(rt; tap.failed());
        assert!(rt; slow.taken.as_slice() == b"foursix".get(..good_calls).unwrap_or(b""));
    }
    Ok(())
}

#[test]
fn a_failed_flush_is_passed_on(rt: HostRuntime) {
    let mut tap = Tap::new(Slow {
        rest: b"",
        taken: Vec::new(rt.alloc()),
        step: 1,
        good_calls: Some(0),
    });
    assert!(rt; tap.flush().is_err());
    assert!(rt; tap.failed());
}

#[test]
fn a_writer_that_takes_no_byte_has_failed(rt: HostRuntime) {
    let mut tap = Tap::new(Slow {
        rest: b"",
        taken: Vec::new(rt.alloc()),
        step: 0,
        good_calls: None,
    });
    assert_eq!(rt; write_text(&mut tap, b"text"), Err(DeviceError));
    assert!(rt; tap.failed());
}

/// What a device does at one of its calls; at all others it moves one byte.
#[derive(Clone, Copy)]
enum Trouble {
    /// The call fails.
    Fails,
    /// A signal interrupts the call.
    IsInterrupted,
    /// The call moves no byte.
    MovesNothing,
}

/// A device in memory that has trouble once.
#[derive(Drop)]
struct Once<'a> {
    rest: &'a [u8],
    taken: Vec<u8>,
    calls: usize,
    at: usize,
    trouble: Trouble,
}

impl Once<'_> {
    /// How many bytes this call may move.
    fn turn(&mut self) -> io::Result<usize> {
        let call = self.calls;
        self.calls = call.saturating_add(1);
        if call != self.at {
            return Ok(1);
        }
        match self.trouble {
            Trouble::Fails => Err(io::Error::from(ErrorKind::ConnectionReset)),
            Trouble::IsInterrupted => Err(io::Error::from(ErrorKind::Interrupted)),
            Trouble::MovesNothing => Ok(0),
        }
    }
}

impl Read for Once<'_> {
    fn read(&mut self, buf: &mut [u8]) -> io::Result<usize> {
        let count = self.turn()?.min(buf.len()).min(self.rest.len());
        buf[..count].copy_from_slice(&self.rest[..count]);
        self.rest = &self.rest[count..];
        Ok(count)
    }
}

impl Write for Once<'_> {
    fn write(&mut self, buf: &[u8]) -> io::Result<usize> {
        let count = self.turn()?.min(buf.len());
        self.taken.extend_from_slice(&buf[..count])?;
        Ok(count)
    }

    fn flush(&mut self) -> io::Result<()> {
        Ok(())
    }
}

#[test]
fn a_write_in_trouble_once_is_the_last(rt: HostRuntime) {
    for trouble in [Trouble::Fails, Trouble::MovesNothing] {
        for at in 0..4 {
            let mut once = Once {
                rest: b"",
                taken: Vec::new(rt.alloc()),
                calls: 0,
                at,
                trouble,
            };
            let mut tap = Tap::new(&mut once);
            assert_eq!(rt; write_text(&mut tap, b"text"), Err(DeviceError));
            assert!(rt; tap.failed());
            assert_eq!(rt; once.calls, at + 1);
            assert!(rt; once.taken.as_slice() == b"text".get(..at).unwrap_or(b""));
        }
    }
}

#[test]
fn a_read_that_fails_once_is_the_last(rt: HostRuntime) {
    for at in 0..5 {
        let mut once = Once {
            rest: b"abcd",
            taken: Vec::new(rt.alloc()),
            calls: 0,
            at,
            trouble: Trouble::Fails,
        };
        let mut tap = Tap::new(&mut once);
        let input = read_input(rt.alloc(), &mut tap, 4);
        assert!(rt; matches!(input, Err(InputError::Device)));
        assert!(rt; tap.failed());
        assert_eq!(rt; once.calls, at + 1);
    }
}

#[test]
fn an_interrupted_call_is_made_again(rt: HostRuntime) -> Result<(), Fail> {
    for at in 0..4 {
        let mut once = Once {
            rest: b"abcd",
            taken: Vec::new(rt.alloc()),
            calls: 0,
            at,
            trouble: Trouble::IsInterrupted,
        };
        let mut tap = Tap::new(&mut once);
        let input = read_input(rt.alloc(), &mut tap, 4)?;
        assert!(rt; input.as_slice() == b"abcd".as_slice());
        assert!(rt; !tap.failed());
        once.calls = 0;
        let mut tap = Tap::new(&mut once);
        assert_eq!(rt; write_text(&mut tap, b"text"), Ok(()));
        assert!(rt; !tap.failed());
        assert!(rt; once.taken.as_slice() == b"text".as_slice());
        assert_eq!(rt; once.calls, 5);
    }
    Ok(())
}

/// A device whose every call is interrupted.
#[derive(Drop)]
struct Endless;

impl Read for Endless {
    fn read(&mut self, _buf: &mut [u8]) -> io::Result<usize> {
        Err(io::Error::from(ErrorKind::Interrupted))
    }
}

impl Write for Endless {
    fn write(&mut self, _buf: &[u8]) -> io::Result<usize> {
        Err(io::Error::from(ErrorKind::Interrupted))
    }

    fn flush(&mut self) -> io::Result<()> {
        Ok(())
    }
}

#[test]
fn a_device_that_is_interrupted_for_ever_fails(rt: HostRuntime) {
    let mut tap = Tap::new(Endless);
    let input = read_input(rt.alloc(), &mut tap, 4);
    assert!(rt; matches!(input, Err(InputError::Device)) && tap.failed());
    let mut tap = Tap::new(Endless);
    assert_eq!(rt; write_text(&mut tap, b"text"), Err(DeviceError));
    assert!(rt; tap.failed());
}

/// A writer whose flush fails.
#[derive(Drop)]
struct Unsettled {
    taken: Vec<u8>,
}

impl Write for Unsettled {
    fn write(&mut self, buf: &[u8]) -> io::Result<usize> {
        self.taken.extend_from_slice(buf)?;
        Ok(buf.len())
    }

    fn flush(&mut self) -> io::Result<()> {
        Err(io::Error::from(ErrorKind::StorageFull))
    }
}

#[test]
fn a_text_that_is_not_settled_is_a_device_fault(rt: HostRuntime) {
    let mut unsettled = Unsettled {
        taken: Vec::new(rt.alloc()),
    };
    let mut tap = Tap::new(&mut unsettled);
    assert_eq!(rt; write_settled(&mut tap, b"text"), Err(DeviceError));
    assert!(rt; tap.failed());
    assert!(rt; unsettled.taken.as_slice() == b"text".as_slice());
    let mut taken = Vec::new(rt.alloc());
    assert_eq!(rt; write_settled(&mut Tap::new(&mut taken), b"text"), Ok(()));
    assert!(rt; taken.as_slice() == b"text".as_slice());
}

#[test]
fn a_write_of_nothing_is_not_refused(rt: HostRuntime) {
    let mut tap = Tap::new(Vec::new(rt.alloc()));
    assert!(rt; matches!(tap.write(b""), Ok(0)));
    assert!(rt; !tap.failed());
    assert_eq!(rt; write_text(&mut tap, b""), Ok(()));
}
