// The program of 01: a board, orders and names from the working directory, and what came of them. All that matters is in the library.
// Each line is built on a page and written once.
#![tactic(auto)]

use board::Rule;
use console::Out;
use desk::{Desk, Tally};
use refusal::{Answer, Refusal};
use std::io::Result;

fn main(rt: HostRuntime) -> Result<()> {
    let mut board = [0u8; 2048];
    let mut orders = [0u8; 65536];
    let mut names = [0u8; 4096];
    let board_end = console::read_file(&rt, b"board.dat", &mut board);
    let orders_end = console::read_file(&rt, b"orders.dat", &mut orders);
    let names_end = console::read_file(&rt, b"names.txt", &mut names);
    let mut out = Out::standard(&rt);
    let planned = plan(
        &mut out,
        &board[..board_end],
        &orders[..orders_end],
        &names[..names_end],
    );
    if let Err(refusal) = planned {
        print_refused(&mut out, refusal);
    }
    out.outcome()
}

// The board under rule A, with its orders, and what is then held; or why nothing is.
fn plan(out: &mut Out, board: &[u8], orders: &[u8], names: &[u8]) -> Answer {
    let l = desk::load(desk::empty(), u32::from(Rule::A), board, Tally::NONE);
    l.answer?;
    let mut d = l.desk;
    let mut tally = l.tally;
    take_orders(out, &mut d, &mut tally, orders);
    print_table(out, d, names)?;
    print_tally(out, tally);
    Ok(())
}

fn print_refused(out: &mut Out, refusal: Refusal) {
    out.number(b"refused ", u8::from(refusal.why) as u64);
    out.number(b" ", refusal.place as u64);
    out.print_line();
}

// The orders one by one; one that cannot be read ends them.
fn take_orders(out: &mut Out, d: &mut Desk, tally: &mut Tally, orders: &[u8]) {
    let mut at: usize = 0;
    let mut count: usize = 0;
    while at < orders.len() {
        let r = desk::order(*d, &orders[at..], *tally);
        if r.took == 0 {
            print_stopped(out, r.answer, at);
            return;
        }
        count += 1;
        print_order(out, r.answer, count);
        *d = r.desk;
        *tally = r.tally;
        at = at.saturating_add(r.took);
    }
}

// The place in the whole file: where the order begins, and the place in it.
fn print_stopped(out: &mut Out, answer: Answer, at: usize) {
    if let Err(refusal) = answer {
        out.number(b"stopped ", u8::from(refusal.why) as u64);
        out.number(b" ", at.saturating_add(refusal.place) as u64);
        out.print_line();
    }
}

fn print_order(out: &mut Out, answer: Answer, count: usize) {
    if let Err(refusal) = answer {
        out.number(b"order ", count as u64);
        out.number(b" refused ", u8::from(refusal.why) as u64);
        out.print_line();
    }
}

fn print_table(out: &mut Out, d: Desk, names: &[u8]) -> Answer {
    let whole = questions::whole(d)?;
    out.text(b"part label start delay end power");
    out.print_line();
    for p in 0..whole.parts {
        print_part(out, d, p, names::label(names, p))?;
    }
    out.number(b"total ", whole.total.0);
    out.print_line();
    Ok(())
}

fn print_part(out: &mut Out, d: Desk, p: usize, label: &[u8]) -> Answer {
    let part = questions::part(d, p)?;
    out.number(b"", p as u64);
    out.text(b" ");
    out.text(if label.is_empty() { b"-" } else { label });
    out.number(b" ", part.start.0 as u64);
    out.number(b" ", part.delay.0 as u64);
    out.number(b" ", part.end.0 as u64);
    out.number(b" ", part.power.0 as u64);
    out.print_line();
    Ok(())
}

fn print_tally(out: &mut Out, tally: Tally) {
    out.number(b"orders ", tally.taken as u64);
    out.number(b" taken ", tally.refused as u64);
    out.text(b" refused");
    out.print_line();
}
