// A board as a design file: its bytes counted and written.
#![tactic(auto)]

ghost use Rattle.std.specs.Prelude.{◌≡◌, length};
ghost use Rattle.fields.specs.Writing.{WroteIfRoom};
ghost use Rattle.board.specs.Board.{WellFormed};
ghost use Rattle.design.specs.Design.{file_of};
ghost use Rattle.design_write.specs.Write.{FileCounted, FileWritten};

use board::Board;
use refusal::{Answer, Why};

fn file_size(b: Board) -> usize
    requires { WellFormed b }
    ensures { result ≡ length (file_of b) }
{
    let linked = fields::size(b.links) + fields::row_size(&b.link[..b.links]);
    let body = fields::row_size(&b.curve[..b.parts]) + linked;
    fields::size(1) + fields::size(b.deadline.0 as usize) + fields::size(b.parts) + body
}

// The bytes of a board's file; none for a value that is no well-formed board.
pub fn design_size(b: Board) -> Option<usize>
    ensures { FileCounted b result }
{
    if !board::well_formed(b) {
        return None;
    }
    Some(file_size(b))
}

// The file of a board, from the front of a buffer on.
fn write_file(b: Board, buf: &mut [u8]) -> usize
    requires { WellFormed b }
    ensures { WroteIfRoom buf.old 0 (file_of b) result buf.new }
{
    let deadline_at = fields::put(buf, 0, 1);
    let parts_at = fields::put(buf, deadline_at, b.deadline.0 as usize);
    let curves_at = fields::put(buf, parts_at, b.parts);
    let count_at = fields::write_row(buf, curves_at, &b.curve[..b.parts]);
    let links_at = fields::put(buf, count_at, b.links);
    fields::write_row(buf, links_at, &b.link[..b.links])
}

// Writes a board's file at the front of a buffer that has room for it. A value that is no well-formed board is refused as no board.
pub fn write_design(b: Board, buf: &mut [u8]) -> Answer
    ensures { FileWritten b buf.old result buf.new }
{
    if !board::well_formed(b) {
        return Err(Why::NoBoard.at(0));
    }
    let needed = file_size(b);
    if buf.len() < needed {
        return Err(Why::BufferShort.at(needed));
    }
    write_file(b, buf);
    Ok(())
}
