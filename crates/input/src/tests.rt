// What no clause says: that a read can succeed, and that one which fails is handed on.
use crate::read_full;
use std::io;
use std::io::{ErrorKind, Read};

// Gives one byte a read, and fails in place of one when as many bytes are left as are named.
#[derive(Drop)]
struct Slow {
    bytes: &'static [u8],
    fails_at: Option<usize>,
}

impl Read for Slow {
    fn read(&mut self, buf: &mut [u8]) -> io::Result<usize> {
        if self.fails_at == Some(self.bytes.len()) {
            return Err(ErrorKind::Other.into());
        }
        if self.bytes.is_empty() || buf.is_empty() {
            return Ok(0);
        }
        buf[0] = self.bytes[0];
        self.bytes = &self.bytes[1..];
        Ok(1)
    }
}

#[test]
fn fills_a_room_of_each_size(rt: HostRuntime) {
    for size in 0..9 {
        let word: &[u8] = b"heads";
        let mut input = word;
        let mut room = [0xFF; 9];
        let count = read_full(&mut input, &mut room[..size]).map_err(|error| error.kind());
        let read = size.min(5);
        assert_eq!(rt; count, Ok(read), "room {size}");
        assert_eq!(rt; &room[..read], &word[..read], "room {size}");
        assert_eq!(rt; input, &word[read..], "room {size}");
    }
}

#[test]
fn reads_on_to_the_end(rt: HostRuntime) {
    let word: &[u8] = b"heads";
    let mut input = Slow {
        bytes: b"heads",
        fails_at: None,
    };
    let mut room = [0xFF; 9];
    let count = read_full(&mut input, &mut room).map_err(|error| error.kind());
    assert_eq!(rt; count, Ok(5));
    assert_eq!(rt; &room[..5], word);
}

#[test]
fn hands_a_failure_on(rt: HostRuntime) {
    let failed = Err(ErrorKind::Other);
    for (size, wanted) in [(2, Ok(2)), (3, Ok(3)), (4, failed), (9, failed)] {
        let mut input = Slow {
            bytes: b"heads",
            fails_at: Some(2),
        };
        let mut room = [0xFF; 9];
        let count = read_full(&mut input, &mut room[..size]).map_err(|error| error.kind());
        assert_eq!(rt; count, wanted, "room {size}");
    }
}
