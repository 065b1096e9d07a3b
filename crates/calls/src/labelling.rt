// The label of a line of a name sheet.
use crate::Talk;
use refusal::Why;

pub(crate) fn label(talk: &mut Talk) -> Option<()> {
    let mut buf = [0u8; 65536];
    let line = talk.number()? as usize;
    let count = talk.stretch(&mut buf)?;
    let sheet = &buf[..count];
    let out = &mut talk.out;
    let found = names::label(sheet, line);
    // No label is empty: an empty stretch is refusal 20.
    if found.is_empty() {
        out.number(b"label no ", u8::from(Why::NoLabel) as u64);
        out.text(b" -");
    } else {
        out.text(b"label no 0 ");
        out.hex(found, found.len());
    }
    out.end_line();
    Some(())
}
