// What no clause says: what comes of a write that fails, and that one can succeed.
use super::*;
use std::io::ErrorKind;

// A writer that takes as many bytes as it has room for, and then fails.
#[derive(Drop)]
struct Tight {
    room: usize,
}

impl Write for Tight {
    fn write(&mut self, buf: &[u8]) -> Result<usize> {
        if self.room == 0 {
            return Err(Error::from(ErrorKind::StorageFull));
        }
        let taken = buf.len().min(self.room);
        self.room -= taken;
        Ok(taken)
    }

    fn flush(&mut self) -> Result<()> {
        Ok(())
    }
}

// The first failure is kept, and nothing is written after it.
#[test]
fn keeps_a_failed_write(rt: HostRuntime) {
    let mut out = Out::to(Tight { room: 2 });
    out.text(b"abc");
    out.flush();
    out.writer.room = 9;
    out.text(b"abc");
    out.flush();
    assert_eq!(rt; out.writer.room, 9);
    assert!(rt; out.outcome().is_err());
}

#[test]
fn writes_what_was_put(rt: HostRuntime) {
    let mut out = Out::to(Vec::<u8>::new(rt.alloc()));
    out.text(&[0u8; PAGE]);
    out.number(b"n ", 10);
    out.hex(b"\x0a\xff!", 2);
    out.end_line();
    out.flush();
    assert_eq!(rt; out.writer.len(), PAGE + 9);
    assert!(rt; &out.writer.as_slice()[PAGE..] == b"n 100aff\n".as_slice());
    assert!(rt; out.outcome().is_ok());
}
