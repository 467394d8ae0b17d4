// The part of a plan text that a procedure is: whole lines as they stand, from its `(proc` line to its closing line, line end included.
#![tactic(auto)]

ghost use Rattle.std.specs.Prelude.{◌≡◌, ◌+◌, ◌-◌, ◌≤◌, length, drop};
ghost use Rattle.plan.specs.Table.{table_forms};
ghost use Rattle.parts.specs.Parts.{skip_lines, forms_before, PartAt, forms_span};

// The place behind the first `lines` lines of a text.
#[tactic(auto, using(crate::proofs::Turns::skipping))]
fn line_start(text: &[u8], lines: usize) -> usize
    ensures { result ≡ skip_lines lines text.now }
{
    let mut left = lines;
    for (i, &byte) in text.iter().enumerate() {
        if left == 0 {
            return i;
        }
        left -= usize::from(byte == b'\n');
    }
    text.len()
}

// The lines of a text from the line of a procedure's `(proc`, which is form number `form`, to its closing line, by the table of the text's forms.
#[tactic(auto, using(crate::proofs::Turns::parting))]
pub fn proc_part<'a>(text: &'a [u8], table: &[u64], form: usize) -> &'a [u8]
    requires { (1 ≤ form) × (form ≤ length table.now) }
    ensures { PartAt text.entry (forms_span text.now form (form + forms_before (table_forms (drop form table.now)))) result }
{
    let end_form = form + procs::rest_of_proc(table, form).len();
    let first = text::line_of(text, form);
    let last = text::line_of(text, end_form);
    let start = line_start(text, first - 1);
    let end = line_start(text, last);
    &text[start..end]
}
