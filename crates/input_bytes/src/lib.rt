//! input_bytes: the first bytes of an input, for programs that read theirs whole into an array.
#![tactic(auto)]

ghost use Rattle.std.specs.Prelude.{◌≡◌, ◌<◌, ◌≤◌, IfOk, length, take};
ghost use Rattle.std.specs.Io.KnownBytes.{Consumes, IsAtEnd};

use std::io;
use std::io::Read;

/// Reads until the buffer is full or the input ends: how many bytes now stand at the buffer's front. A read that fails ends it.
pub fn read_full<R: Read>(input: &mut R, buf: &mut [u8]) -> io::Result<usize>
    ensures bound { IfOk result (λ n. n ≤ length buf.new) }
    // They are the input's next bytes, and none follows where they are fewer than the buffer has room for.
    ensures bytes { IfOk result (λ n. Consumes (R.remaining input.old) (R.remaining input.new) (take n buf.new)) }
    ensures end { IfOk result (λ n. n < length buf.new → IsAtEnd (R.remaining input.new)) }
{
    let mut n = 0;
    while n < buf.len() {
        let more = input.read(&mut buf[n..])?;
        if more == 0 {
            break;
        }
        n += more;
    }
    Ok(n)
}

#[cfg(test)]
mod tests {
    use super::*;
    use std::io::{Error, ErrorKind};

    // Gives a byte a read, so many times, and then fails.
    #[derive(Drop)]
    struct Cut(u8);

    impl Read for Cut {
        fn read(&mut self, buf: &mut [u8]) -> io::Result<usize> {
            if self.0 == 0 {
                return Err(Error::from(ErrorKind::BrokenPipe));
            }
            if buf.len() == 0 {
                return Ok(0);
            }
            self.0 -= 1;
            buf[0] = 7;
            Ok(1)
        }
    }

    // Two reads fill the front, and a third finds the end.
    #[test]
    fn input_ends(rt: HostRuntime) -> io::Result<()> {
        let mut input = (b"ab" as &[u8]).chain(b"cde" as &[u8]);
        let mut buf = [9u8; 8];
        let n = read_full(&mut input, &mut buf)?;
        assert_eq!(rt; n, 5);
        assert!(rt; buf == *b"abcde\t\t\t");
        Ok(())
    }

    // The rest is left to the next call.
    #[test]
    fn buffer_is_full(rt: HostRuntime) -> io::Result<()> {
        let mut input = (b"ab" as &[u8]).chain(b"cde" as &[u8]);
        let mut buf = [0u8; 4];
        let n = read_full(&mut input, &mut buf)?;
        assert_eq!(rt; n, 4);
        assert!(rt; buf == *b"abcd");
        let more = read_full(&mut input, &mut buf)?;
        assert_eq!(rt; more, 1);
        assert_eq!(rt; buf[0], b'e');
        Ok(())
    }

    #[test]
    fn read_fails(rt: HostRuntime) {
        let mut input = Cut(3);
        let mut buf = [0u8; 4];
        assert!(rt; read_full(&mut input, &mut buf).is_err());
    }
}
