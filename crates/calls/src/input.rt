// What a call takes: bytes, numbers and byte strings, read from the file as they come. None where the file ends before their last byte.
ghost use Rattle.std.specs.Prelude.{IfSome};
ghost use Rattle.io.specs.Counts.{IsPrefixLen};

use crate::Talk;

impl Talk {
    pub(crate) fn byte(&mut self) -> Option<u8> {
        let mut one = [0u8; 1];
        if console::read_full(&mut self.source, &mut one) < 1 {
            return None;
        }
        Some(one[0])
    }

    // A number of eight bytes, lowest first.
    pub(crate) fn number(&mut self) -> Option<u64> {
        let mut eight = [0u8; 8];
        if console::read_full(&mut self.source, &mut eight) < 8 {
            return None;
        }
        Some(u64::from_le_bytes(eight))
    }

    // A byte string after its length, put at the front of a buffer. None also where it is longer than the buffer.
    pub(crate) fn stretch(&mut self, buf: &mut [u8]) -> Option<usize>
        ensures { IfSome result (λ count. IsPrefixLen count buf.new) }
    {
        let n = self.number()? as usize;
        let count = console::read_next(&mut self.source, n, buf);
        (count == n).then_some(count)
    }
}
