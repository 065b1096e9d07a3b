// Reads and writes numbers at every boundary (01, Files; refusals 1 and 2) and prints a line for each.
#![tactic(auto)]

use console::Out;
use groups::{GROUPS, Read};
use refusal::Answer;
use std::io::Result;

// Room for any number with bytes on both sides, and with one byte before it.
const WIDE: usize = GROUPS + 3;

const TIGHT: usize = GROUPS + 1;

fn put_bytes(out: &mut Out, s: &[u8]) {
    for byte in s {
        out.number(b" ", *byte as u64);
    }
}

// What is read at a place.
fn read(out: &mut Out, s: &[u8], at: usize) {
    out.text(b"read");
    put_bytes(out, s);
    out.number(b" at ", at as u64);
    put_read(out, groups::read_number(s, at));
    out.print_line();
}

fn put_read(out: &mut Out, read: Answer<Read<u32>>) {
    match read {
        Ok(number) => {
            out.number(b": number ", number.value as u64);
            out.number(b" next ", number.next as u64);
        }
        Err(refusal) => {
            out.number(b": refused ", u8::from(refusal.why) as u64);
            out.number(b" place ", refusal.place as u64);
        }
    }
}

// What is read at each place, at the end, and at the greatest place there is.
fn read_places(out: &mut Out, s: &[u8]) {
    for at in 0..=s.len() {
        read(out, s, at);
    }
    read(out, s, usize::MAX);
}

// What is read of each prefix.
fn read_prefixes(out: &mut Out, s: &[u8]) {
    for k in 0..=s.len() {
        read(out, &s[..k], 0);
    }
}

// What a buffer holds after a number is written at a place of it.
fn write(out: &mut Out, buf: &mut [u8], at: usize, n: u32) {
    let next = groups::write_number(buf, at, n);
    out.number(b"write ", n as u64);
    out.number(b" at ", at as u64);
    out.number(b": next ", next as u64);
    out.text(b" bytes");
    put_bytes(out, buf);
    out.print_line();
}

fn print_size(out: &mut Out, n: u32) {
    out.number(b"number ", n as u64);
    out.number(b" size ", groups::size(n) as u64);
    out.print_line();
}

// A number: its size; written with bytes on both sides, and read back; written where there is little room, or none.
fn number(out: &mut Out, n: u32) {
    print_size(out, n);
    let mut wide_buffer = [9u8; WIDE];
    write(out, &mut wide_buffer, 2, n);
    read(out, &wide_buffer, 2);
    for k in 0..=TIGHT {
        let mut buffer = [9u8; TIGHT];
        write(out, &mut buffer[..k], 1, n);
    }
    let mut last = [9u8; TIGHT];
    write(out, &mut last, usize::MAX, n);
}

// The prefixes of a number's form.
fn form(out: &mut Out, n: u32) {
    let mut buffer = [9u8; GROUPS];
    groups::write_number(&mut buffer, 0, n);
    let k = groups::size(n);
    read_prefixes(out, &buffer[..k]);
}

fn main(rt: HostRuntime) -> Result<()> {
    let mut out = Out::standard(&rt);
    let boundaries: [u32; 12] = [
        0, 1, 127, 128, 16383, 16384, 2097151, 2097152, 20000000, 20000001, 268435455, 268435456,
    ];
    for n in boundaries {
        number(&mut out, n);
        form(&mut out, n);
    }
    number(&mut out, u32::MAX);
    read_places(&mut out, b"\x80\x00");
    read_places(&mut out, b"\xff\x00");
    read_places(&mut out, b"\x80\x80\x00");
    read_places(&mut out, b"\x81\x80\x00");
    read_places(&mut out, b"\xff\xff\x00");
    read_places(&mut out, b"\x80\x80\x80");
    read_places(&mut out, b"\xff\xff\xff");
    read_places(&mut out, b"\xff\xff\xff\xff");
    read_places(&mut out, b"\x05\x80\x01\xff\xff\xff\x7f\x00\x80");
    read_prefixes(&mut out, b"\x80\x80\x80\x01");
    read_prefixes(&mut out, b"\xff\xff\xff\x7f");
    read_prefixes(&mut out, b"\x80\x80\x80\x80\x01");
    read_prefixes(&mut out, b"\x80\x80\x80\x00");
    out.outcome()
}
