// The file of the board that is held.
ghost use Rattle.std.specs.Prelude.{◌≤◌};

use crate::Talk;
use console::Out;
use desk::Desk;
use refusal::Answer;

// The largest buffer that a call lends.
const BUFFER: usize = 65536;

// Writes into a buffer of the size that is given. Version and rule say nothing yet.
pub(crate) fn write(talk: &mut Talk, d: Desk) -> Option<()> {
    let size = talk.number()?;
    let _version = talk.number()?;
    let _rule = talk.number()?;
    put_write(&mut talk.out, d, (size as usize).min(BUFFER));
    Some(())
}

fn put_write(out: &mut Out, d: Desk, size: usize)
    requires { size ≤ 65536 }
{
    let mut buf = [0u8; BUFFER];
    let answer = desk::write(d, &mut buf[..size]);
    out.text(b"write");
    report::put_answer(out, answer);
    out.text(b" path 0 file ");
    match answer {
        Ok(()) => out.hex(&buf, bytes_needed(d)),
        Err(_) => out.text(b"-"),
    }
    out.end_line();
}

// How long the held board's file is.
fn bytes_needed(d: Desk) -> usize {
    d.held
        .and_then(|held| design_write::design_size(held.board))
        .unwrap_or(0)
}

// The held board's file in hex digits.
pub(crate) fn put_file(out: &mut Out, d: Desk) -> Answer {
    let mut buf = [0u8; 4096];
    desk::write(d, &mut buf)?;
    out.hex(&buf, bytes_needed(d));
    Ok(())
}
