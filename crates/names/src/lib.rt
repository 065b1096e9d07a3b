// Labels: looked up in a name sheet alone, for any line number, and handed back as that stretch of the sheet.
#![tactic(auto)]

ghost use Rattle.std.specs.Prelude.{◌≡◌, ◌==◌, ◌+◌, ◌-◌, ◌≤◌, length, take, drop, position};
ghost use Rattle.std.specs.List.{list_all};
ghost use Rattle.names.specs.Sheet.{first_line, from_line, plain, label_of, label_place, label_answer};

use refusal::{Answer, Why};

pub const LABEL_MAX: usize = 16;

const LINE_END: u8 = 10;

// Where line `line` begins; at the end where the sheet has fewer lines.
fn line_start(sheet: &[u8], line: usize) -> usize
    ensures { (result ≤ length sheet.now) × (drop result sheet.now ≡ from_line sheet.now line) }
{
    let mut left = line;
    for at in 0..sheet.len() {
        if left == 0 {
            return at;
        }
        if sheet[at] == LINE_END {
            left -= 1;
        }
    }
    sheet.len()
}

// Where the first line end is.
fn first_end(text: &[u8]) -> Option<usize>
    ensures { result ≡ position (λ x. x == 10) text.now }
{
    text.iter().position(|byte| *byte == LINE_END)
}

// Where the line that begins at `start` ends.
fn line_end(sheet: &[u8], start: usize) -> usize
    requires { start ≤ length sheet.now }
    ensures { (start ≤ result) × (result ≤ length sheet.now) × (take (result - start) (drop start sheet.now) ≡ first_line (drop start sheet.now)) }
{
    let rest = &sheet[start..];
    start + first_end(rest).unwrap_or(rest.len())
}

fn is_plain(byte: u8) -> bool
    ensures { result ≡ plain byte }
{
    33 <= byte && byte <= 126
}

// Whether all bytes are plain.
fn are_plain(text: &[u8]) -> bool
    ensures { result ≡ list_all plain text.now }
{
    text.iter().all(|byte| is_plain(*byte))
}

// The label of line `line`, or an empty stretch at refusal 20.
// Kept: (a) 01 names this form, a part of the caller's sheet or an empty part.
pub fn label(sheet: &[u8], line: usize) -> &[u8]
    ensures result_value { result.now ≡ label_of sheet.now line }
    ensures ref_ptr_value { result.ref_ptr.0 ≡ sheet.entry.ref_ptr.0 }
    ensures ref_ptr_value_2 { result.ref_ptr.1 ≡ sheet.entry.ref_ptr.1 + label_place sheet.now line }
{
    let start = line_start(sheet, line);
    let end = line_end(sheet, start);
    if end - start < 1 {
        return &sheet[..0];
    }
    if LABEL_MAX < end - start {
        return &sheet[..0];
    }
    if are_plain(&sheet[start..end]) {
        &sheet[start..end]
    } else {
        &sheet[..0]
    }
}

// The answer beside the stretch: refusal 20 exactly where it is empty.
pub fn label_answer(sheet: &[u8], line: usize) -> Answer
    ensures { result ≡ label_answer sheet.now line }
{
    if label(sheet, line).is_empty() {
        return Err(Why::NoLabel.at(0));
    }
    Ok(())
}
