// Files in and text out, for the programs. An `Out` owns the page that text is put on. A full page is written out before the next byte, so that
// nothing that is put on it is lost. A write that fails is kept, for the program to end with.
#![tactic(auto)]

ghost use Rattle.std.specs.Prelude.{◌≡◌, ◌≤◌};
ghost use Rattle.io.specs.Counts.{IsPrefixLen};

use std::fs::File;
use std::io::{Error, Read, Result, Stdout, Write};
use std::rt::Files;
use std::str;

pub const PAGE: usize = 65536;

// ---- files
// The first bytes of a file, as many as the buffer holds. A file that cannot be read is read as empty, and no path but text names one.
// Kept: (a) any bytes may be asked for as a path; `read_file` may not narrow its parameter to a `&str`.
pub fn read_file<R: Files>(rt: &R, path: &[u8], buf: &mut [u8]) -> usize
    ensures { IsPrefixLen result buf.new }
{
    let Some(mut file) = opened(rt, path) else {
        return 0;
    };
    read_full(&mut file, buf)
}

fn opened<R: Files>(rt: &R, path: &[u8]) -> Option<R::File> {
    let name = str::from_utf8(path).ok()?;
    File::open(rt, name).ok()
}

// Reads until the buffer is full, the file ends or a read fails, which gives no bytes, and returns how many bytes it put at the start of the buffer.
pub fn read_full<R: Read>(file: &mut R, buf: &mut [u8]) -> usize
    ensures { IsPrefixLen result buf.new }
{
    let mut done: usize = 0;
    while done < buf.len() {
        let n = file.read(&mut buf[done..]).unwrap_or(0);
        if n == 0 {
            return done;
        }
        done += n;
    }
    done
}

// The next bytes of a file, as many as are asked for, the buffer holds and the file has.
pub fn read_next<R: Read>(file: &mut R, count: usize, buf: &mut [u8]) -> usize
    ensures { IsPrefixLen result buf.new }
{
    let most = count.min(buf.len());
    read_full(file, &mut buf[..most])
}

// The next record of a bundle, of the length that its first three bytes say, as much of it as the buffer holds.
pub fn read_record<R: Read>(file: &mut R, length: [u8; 4], buf: &mut [u8]) -> usize
    ensures { IsPrefixLen result buf.new }
{
    let n = u32::from_le_bytes([length[0], length[1], length[2], 0]);
    read_next(file, n as usize, buf)
}

// ---- where text goes
// A writer, mostly standard output; the page before it, filled up to `at`; and the error of the first write that failed: from then on nothing more
// is written.
// Kept: (d) its own words and not `write!`, which gives a Result at each line: the error is kept here, and a program goes on to its end.
#[derive(Drop)]
pub struct Out<W = Stdout> {
    writer: W,
    failed: Option<Error>,
    page: [u8; PAGE],
    at: usize,
    ghost fits: { at ≤ 65536 },
}

impl Out {
    ghost use Rattle.console.specs.Output.{HasFailed};

    // Nothing has failed yet, and nothing stands on the page.
    pub fn standard(rt: &HostRuntime) -> Out
        ensures none { ¬ (HasFailed result) }
        ensures begun { result.at ≡ 0 }
    {
        Out::to(rt.stdout())
    }
}

impl<W: Write> Out<W> {
    ghost use Rattle.std.specs.Prelude.{ℕ, [], ◌∷◌, ◌++◌, ◌/◌, ◌%◌, ◌↔◌, Some, IsErr, IfErr, take};
    ghost use Rattle.io.specs.Digits.{hex_digit_ascii};
    ghost use Rattle.console.specs.Output.{HasFailed, out_writer, Stays, WritesTo, GoesOn, Put, NumberPut};
    ghost use Rattle.console.specs.Page.{text_on, hex_of};

    // The same over any writer.
    pub fn to(writer: W) -> Out<W>
        ensures none { ¬ (HasFailed result) }
        ensures to { out_writer result ≡ writer }
        ensures begun { result.at ≡ 0 }
    {
        Out {
            writer,
            failed: None,
            page: [0; PAGE],
            at: 0,
        }
    }

    // What a program ends with: the error of the first write that failed.
    pub fn outcome(self) -> Result<()>
    where
        W: Drop,
        ensures fails { IsErr result ↔ HasFailed self }
        ensures first { IfErr result (λ e. self.failed ≡ Some e) }
    {
        match self.failed {
            Some(e) => Err(e),
            None => Ok(()),
        }
    }

    // Writes out what the page is filled with, where no write failed before, and begins it anew.
    pub fn flush(&mut self)
        ensures begun { (self.new.at ≡ 0) × (self.new.page ≡ self.old.page) }
        ensures stays { Stays self.old self.new }
        ensures sent { WritesTo W.contents self.old self.new (take self.old.at self.old.page) }
        ensures goes_on { GoesOn W.contents self.old self.new [] }
    {
        let end = self.at;
        self.at = 0;
        if self.failed.is_some() {
            return;
        }
        if let Err(e) = self.writer.write_all(&self.page[..end]) {
            self.failed = Some(e);
        }
    }

    // One byte more, on a page begun anew where this one is full.
    fn put(&mut self, byte: u8)
        ensures { Put W.contents self.old self.new (byte ∷ []) }
    {
        if self.at == PAGE {
            self.flush();
        }
        self.page[self.at] = byte;
        self.at += 1;
    }

    // A word as it stands.
    pub fn text(&mut self, word: &[u8])
        ensures { Put W.contents self.old self.new word.now }
    {
        for byte in word {
            self.put(*byte);
        }
    }

    // A word, and then a number in decimal digits.
    pub fn number(&mut self, word: &[u8], n: u64)
        ensures { NumberPut W.contents self.old self.new word.now n }
    {
        let mut digits = [0u8; 20];
        let count = io::decimal(n, &mut digits);
        self.text(word);
        self.text(&digits[..count]);
    }

    // The first bytes, as many as are asked for and there are, each as two hex digits in lower case.
    pub fn hex(&mut self, bytes: &[u8], count: usize)
        ensures { Put W.contents self.old self.new (hex_of (take count bytes.now)) }
    {
        for byte in &bytes[..count.min(bytes.len())] {
            self.hex_byte(*byte);
        }
    }

    fn hex_byte(&mut self, byte: u8)
        ensures { Put W.contents self.old self.new (hex_digit_ascii (byte / 16) ∷ hex_digit_ascii (byte % 16) ∷ []) }
    {
        let mut digits = [0u8; 16];
        let count = io::hex(byte as u64, 2, &mut digits);
        self.text(&digits[..count]);
    }

    pub fn end_line(&mut self)
        ensures { Put W.contents self.old self.new (10 ∷ []) }
    {
        self.put(b'\n');
    }

    // Ends the line and writes it out.
    pub fn print_line(&mut self)
        ensures begun { (self.new.at ≡ 0) × (self.new.page ≡ text_on self.old.page self.old.at (10 ∷ [])) }
        ensures stays { Stays self.old self.new }
        ensures goes_on { GoesOn W.contents self.old self.new (10 ∷ []) }
    {
        self.end_line();
        self.flush();
    }
}

#[cfg(test)]
mod tests;
