// What is held, each fact on a line. A request that brings another line adds it to `put_held`.
use crate::{Talk, asking, writing};
use board::Rule;
use console::Out;
use desk::Desk;
use refusal::Answer;
use report::Row;

pub(crate) fn state(talk: &mut Talk, d: Desk) -> Option<()> {
    if d.held.is_some() {
        return put_held(&mut talk.out, d).ok();
    }
    talk.out.text(b"held 0\n");
    Some(())
}

// No question about what is held is refused.
fn put_held(out: &mut Out, d: Desk) -> Answer {
    let whole = questions::whole(d)?;
    out.text(b"held 1\n");
    put_rule(out, whole.rule);
    out.number(b"deadline ", whole.deadline.0 as u64);
    out.number(b" usable ", whole.usable.0 as u64);
    out.text(b"\nfile ");
    writing::put_file(out, d)?;
    out.end_line();
    for p in 0..whole.parts {
        put_part(out, d, p)?;
    }
    out.number(b"total ", whole.total.0);
    out.end_line();
    for l in 0..whole.links {
        put_link(out, d, l)?;
    }
    for p in 0..whole.parts {
        put_sets(out, d, p)?;
    }
    Ok(())
}

fn put_rule(out: &mut Out, rule: Rule) {
    match rule {
        Rule::A => out.text(b"rule A\n"),
        Rule::B => out.text(b"rule B\n"),
    }
}

fn put_part(out: &mut Out, d: Desk, p: usize) -> Answer {
    let part = questions::part(d, p)?;
    let row = Row {
        part: p,
        start: part.start,
        delay: part.delay,
        end: part.end,
        power: part.power,
    };
    report::put_row(out, row);
    Ok(())
}

fn put_link(out: &mut Out, d: Desk, l: usize) -> Answer {
    if let Some(link) = questions::link(d, l)? {
        out.number(b"link ", link.from as u64);
        out.number(b" ", link.to as u64);
        out.number(b" critical ", link.critical as u64);
        out.end_line();
    }
    Ok(())
}

fn put_sets(out: &mut Out, d: Desk, p: usize) -> Answer {
    let up = questions::upstream(d, p)?;
    let down = questions::downstream(d, p)?;
    let family = questions::family(d, p)?;
    out.number(b"sets ", p as u64);
    asking::put_marked(out, b" up ", up);
    asking::put_marked(out, b" down ", down);
    asking::put_marked(out, b" parents ", family.parents);
    asking::put_marked(out, b" children ", family.children);
    out.end_line();
    Ok(())
}
