// An input that is read a buffer at a time, for programs that take it in pieces of a known size.
#![tactic(auto)]

ghost use Rattle.std.specs.Prelude.{◌≡◌, length, take, ◌<◌, ◌≤◌, ◌⊎◌, None, IsSome, MatchOption, Ok, Err};
ghost use Rattle.std.specs.Io.KnownBytes.{Consumes, IsAtEnd};

use std::io;
use std::io::Read;

// A reader, and the error of its first failed read: from there on the input counts as ended.
#[derive(Drop)]
pub struct InputBytes<R> {
    pub reader: R,
    pub failed: Option<io::Error>,
}

impl<R: Read> InputBytes<R> {
    pub fn new(reader: R) -> InputBytes<R>
        ensures reader { result.reader ≡ reader }
        ensures failed { result.failed ≡ None }
    {
        InputBytes {
            reader,
            failed: None,
        }
    }

    // Reads until `buf` is full, the input ends or a read fails, and answers how many bytes it put at the front.
    pub fn read_full(&mut self, buf: &mut [u8]) -> usize
        ensures within { result ≤ length buf.new }
        ensures prefix { result ≡ length (take result buf.new) }
        ensures bytes { Consumes (R.remaining self.old.reader) (R.remaining self.new.reader) (take result buf.new) }
        ensures end { result < length buf.new → IsSome self.new.failed ⊎ IsAtEnd (R.remaining self.new.reader) }
    {
        if self.failed.is_some() {
            return 0;
        }
        let mut done = 0;
        while done < buf.len() {
            match self.reader.read(&mut buf[done..]) {
                Ok(n) => {
                    if n == 0 {
                        return done;
                    }
                    done += n;
                }
                Err(e) => {
                    self.failed = Some(e);
                    return done;
                }
            }
        }
        done
    }
}

impl<R: Read + Drop> InputBytes<R> {
    // Ends the reading, and tells the failed read, if there was one.
    pub fn finish(self) -> io::Result<()>
        ensures { MatchOption self.failed (result ≡ Ok tt) (λ e. result ≡ Err e) }
    {
        let InputBytes { reader: _, failed } = self;
        match failed {
            None => Ok(()),
            Some(e) => Err(e),
        }
    }
}

#[cfg(test)]
mod tests {
    use super::*;
    use std::io::{Error, ErrorKind};

    // Gives a byte a read, three in all, then fails once, and then gives more.
    #[derive(Drop)]
    struct Broken {
        given: u8,
    }

    impl Read for Broken {
        fn read(&mut self, buf: &mut [u8]) -> io::Result<usize> {
            if buf.is_empty() {
                return Ok(0);
            }
            self.given = self.given.saturating_add(1);
            if self.given == 4 {
                return Err(Error::from(ErrorKind::BrokenPipe));
            }
            buf[0] = 7;
            Ok(1)
        }
    }

    #[test]
    fn a_failed_read_ends_the_input_and_is_told(rt: HostRuntime) {
        let mut buf = [0u8; 5];
        let mut input = InputBytes::new(Broken { given: 0 });
        assert_eq!(rt; input.read_full(&mut buf), 3);
        assert_eq!(rt; buf, [7, 7, 7, 0, 0]);
        assert_eq!(rt; input.read_full(&mut buf[3..]), 0);
        assert_eq!(rt; buf, [7, 7, 7, 0, 0]);
        assert!(rt; input.finish().is_err());
    }

    #[test]
    fn an_input_that_ends_is_short(rt: HostRuntime) {
        let bytes = [1u8, 2, 3];
        let reader: &[u8] = &bytes;
        let mut input = InputBytes::new(reader);
        let mut buf = [0u8; 2];
        assert_eq!(rt; input.read_full(&mut buf), 2);
        assert_eq!(rt; buf, [1, 2]);
        assert_eq!(rt; input.read_full(&mut buf), 1);
        assert_eq!(rt; buf, [3, 2]);
        assert_eq!(rt; input.read_full(&mut buf), 0);
        assert!(rt; input.finish().is_ok());
    }
}
