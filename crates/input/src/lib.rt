// Reading into a room of a fixed size, so that endless input ends too.
#![tactic(auto)]

ghost use Rattle.std.specs.Prelude.{◌<◌, ◌≤◌, length, take, IfOk};
ghost use Rattle.std.specs.Io.KnownBytes.{Consumes, IsAtEnd};

use std::io;
use std::io::Read;

// Reads until the room is full or the input ends, and tells how many bytes of the room are read. On an empty room it makes no call.
pub fn read_full<R: Read>(reader: &mut R, room: &mut [u8]) -> io::Result<usize>
    ensures in_bounds { IfOk result (λ n. n ≤ length room.new) }
    ensures bytes { IfOk result (λ n. Consumes (R.remaining reader.old) (R.remaining reader.new) (take n room.new)) }
    ensures full { IfOk result (λ n. n < length room.new → IsAtEnd (R.remaining reader.new)) }
{
    let mut done = 0;
    while done < room.len() {
        let n = reader.read(&mut room[done..])?;
        if n == 0 {
            break;
        }
        done += n;
    }
    Ok(done)
}

#[cfg(test)]
mod tests {
    use super::read_full;
    use std::io;
    use std::io::{ErrorKind, Read};
    use std::test::Fail;

    // One byte at a time, and then a failure.
    #[derive(Drop)]
    struct Torn(u8);

    impl Read for Torn {
        fn read(&mut self, buf: &mut [u8]) -> io::Result<usize> {
            if self.0 == 0 {
                return Err(io::Error::from(ErrorKind::BrokenPipe));
            }
            if buf.is_empty() {
                return Ok(0);
            }
            self.0 -= 1;
            buf[0] = b'x';
            Ok(1)
        }
    }

    #[test]
    fn what_fits_is_read_and_the_rest_is_left(rt: HostRuntime) -> Result<(), Fail> {
        let mut reader: &[u8] = b"seven..";
        let mut room = [0u8; 5];
        assert_eq!(rt; read_full(&mut reader, &mut room)?, 5);
        assert_eq!(rt; &room, b"seven");
        assert_eq!(rt; read_full(&mut reader, &mut room)?, 2);
        assert_eq!(rt; &room[..2], b"..".as_slice());
        assert_eq!(rt; read_full(&mut reader, &mut room)?, 0);
        Ok(())
    }

    #[test]
    fn a_failure_in_mid_stream_is_told(rt: HostRuntime) -> Result<(), Fail> {
        let mut room = [0u8; 5];
        assert_eq!(rt; read_full(&mut Torn(5), &mut room)?, 5);
        assert!(rt; read_full(&mut Torn(4), &mut room).is_err());
        Ok(())
    }
}
