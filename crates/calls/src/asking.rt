// Questions about a part of the held board: its power at a delay, its cones, its parents and children.
use crate::Talk;
use console::Out;
use desk::Desk;
use questions::Marked;
use refusal::Answer;

pub(crate) fn power(talk: &mut Talk, d: Desk) -> Option<()> {
    let part = talk.number()?;
    let delay = talk.number()?;
    let out = &mut talk.out;
    out.text(b"power");
    match questions::power(d, part as usize, delay as usize) {
        Ok(power) => out.number(b" no 0 value ", power.0 as u64),
        Err(refusal) => report::put_refused(out, refusal),
    }
    out.end_line();
    Some(())
}

// Upstream or downstream of a part.
pub(crate) fn cone<F: Fn(usize) -> Answer<Marked>>(
    talk: &mut Talk,
    name: &[u8],
    asked: F,
) -> Option<()>
    requires { F.IsAlwaysCallable asked }
{
    let part = talk.number()?;
    let out = &mut talk.out;
    out.text(name);
    match asked(part as usize) {
        Ok(cone) => {
            out.number(b" no 0 set ", cone.set);
            out.number(b" count ", cone.count as u64);
        }
        Err(refusal) => report::put_refused(out, refusal),
    }
    out.end_line();
    Some(())
}

pub(crate) fn sets(talk: &mut Talk, d: Desk) -> Option<()> {
    let part = talk.number()?;
    let out = &mut talk.out;
    out.text(b"sets");
    match questions::family(d, part as usize) {
        Ok(family) => {
            out.text(b" no 0");
            put_marked(out, b" parents ", family.parents);
            put_marked(out, b" children ", family.children);
        }
        Err(refusal) => report::put_refused(out, refusal),
    }
    out.end_line();
    Some(())
}

// A set after its name, and the number of parts marked.
pub(crate) fn put_marked(out: &mut Out, name: &[u8], marked: Marked) {
    out.number(name, marked.set);
    out.number(b" ", marked.count as u64);
}
