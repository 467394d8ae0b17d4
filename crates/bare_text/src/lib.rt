// The writer of a plan's text in 01's bare form, from the table of its forms: all of them, or those that straightening retains.
#![tactic(auto)]

ghost use Rattle.std.specs.Prelude.{true, [], ◌++◌, ◌≡◌, ◌+◌, ◌≤◌, ◌<◌, length};
ghost use Rattle.laws.specs.Wrote.{Wrote};
ghost use Rattle.text.specs.Forms.{number_in};
ghost use Rattle.text.specs.Lines.{text_of};
ghost use Rattle.plan.specs.Table.{table_forms};
ghost use Rattle.report_lines.specs.Lines.{digits};
ghost use Rattle.bare_text.specs.Writing.{form_line, SmallTable, SmallTable-prop, RoomFor, opens_block, is_retained, line_if, retained_forms, WroteItems};

use text::Form;

// How far a writer has come: the place of the next form in the table, how many bytes it wrote, and whether the block around them is left behind them.
#[derive(Clone, Copy)]
pub struct Progress {
    pub next: usize,
    pub used: usize,
    pub closed: bool,
}

// A keyword, a number and the rest of the line.
fn put_number_line(out: &mut [u8], keyword: &[u8], n: u16, rest: &[u8]) -> usize
    requires { length (keyword.now ++ digits n ++ rest.now) ≤ length out.old }
    ensures { Wrote out.old out.new 0 result (keyword.now ++ digits n ++ rest.now) }
{
    let i = report_lines::put_numbered(out, 0, keyword, u64::from(n));
    report_lines::put_text(out, i, rest)
}

// A form's line.
#[tactic(auto, using(crate::proofs::Lines::lines))]
fn put_form(out: &mut [u8], form: Form) -> usize
    requires { (number_in form < 1000) × (length (form_line form) ≤ length out.old) }
    ensures { Wrote out.old out.new 0 result (form_line form) }
{
    match form {
        Form::Plan => report_lines::put_text(out, 0, b"(plan\n"),
        Form::Proc => report_lines::put_text(out, 0, b"(proc\n"),
        Form::Thread(n) => put_number_line(out, b"(thread ", n, b")\n"),
        Form::Close => report_lines::put_text(out, 0, b")\n"),
        Form::Skip => report_lines::put_text(out, 0, b"(skip)\n"),
        Form::Call(n) => put_number_line(out, b"(call ", n, b")\n"),
        Form::Hold(n) => put_number_line(out, b"(hold ", n, b"\n"),
        Form::Loop => report_lines::put_text(out, 0, b"(loop\n"),
        Form::Either => report_lines::put_text(out, 0, b"(either\n"),
        Form::One => report_lines::put_text(out, 0, b"(one\n"),
        Form::Two => report_lines::put_text(out, 0, b"(two\n"),
        Form::Share(n) => put_number_line(out, b"(share ", n, b"\n"),
    }
}

// Whether a form opens a bracket: the plan, a procedure or a block within one.
fn opens_block(form: Form) -> bool
    ensures { result ≡ opens_block form }
{
    !matches!(
        form,
        Form::Thread(_) | Form::Close | Form::Skip | Form::Call(_)
    )
}

// Whether a copy, straightened or not, retains a form: a closing one if it retains the bracket around it, `enclosed`.
fn is_retained(form: Form, straighten: bool, enclosed: bool) -> bool
    ensures { result ≡ is_retained straighten enclosed form }
{
    match form {
        Form::Close => enclosed,
        Form::Loop | Form::Either | Form::One | Form::Two => !straighten,
        _ => true,
    }
}

// A form's line, or nothing where the form is not retained.
fn put_retained(out: &mut [u8], form: Form, retained: bool) -> usize
    requires { (number_in form < 1000) × (length (form_line form) ≤ length out.old) }
    ensures { Wrote out.old out.new 0 result (line_if retained form) }
{
    if retained { put_form(out, form) } else { 0 }
}

// The writer of a copy: the table of a plan's forms, and whether the copy is straightened.
#[derive(Clone, Copy)]
struct Writer<'a> {
    table: &'a [u64],
    straighten: bool,
    ghost small: { SmallTable table.now } by { SmallTable-prop table.now },
}

impl Writer<'_> {
    // The line at a place of the table, where its form is retained, and the block within, where the form opens a bracket: the rest of the output is lent on to that block's writer.
    #[cycle(write_block_write_item)]
    fn write_item(&self, at: usize, enclosed: bool, out: &mut [u8]) -> Progress
        requires { (at < length self.now.table.now) × RoomFor self.now.table.now at out.old }
        ensures { WroteItems self.now.straighten enclosed self.now.table.now at out.old out.new result.next result.used result.closed × (at < result.next) }
    {
        let form = plan::form_at(self.table[at]);
        let retained = is_retained(form, self.straighten, enclosed);
        let n = put_retained(out, form, retained);
        if opens_block(form) {
            let inner = self.write_block(at + 1, retained, &mut out[n..]);
            return Progress {
                next: inner.next,
                used: n + inner.used,
                closed: false,
            };
        }
        Progress {
            next: at + 1,
            used: n,
            closed: text::is_close(form),
        }
    }

    // The lines of the forms that are retained, from a place of the table up to the form that closes the block around it; each item is lent what is left of the output.
    #[cycle(write_block_write_item)]
    fn write_block(&self, at: usize, enclosed: bool, out: &mut [u8]) -> Progress
        requires { (at ≤ length self.now.table.now) × RoomFor self.now.table.now at out.old }
        ensures { WroteItems self.now.straighten enclosed self.now.table.now at out.old out.new result.next result.used true }
    {
        let mut i = at;
        let mut used: usize = 0;
        // Kept: an item moves the place behind all of its forms, so no iterator goes over the places.
        while i < self.table.len() {
            let item = self.write_item(i, enclosed, &mut out[used..]);
            i = item.next;
            used += item.used;
            if item.closed {
                break;
            }
        }
        Progress {
            next: i,
            used,
            closed: true,
        }
    }
}

// The text of a table's forms, all or those that straightening retains, and how many bytes it has.
pub fn write_forms(table: &[u64], straighten: bool, out: &mut [u8]) -> usize
    requires { SmallTable table.now × (length (text_of (table_forms table.now)) ≤ length out.old) }
    ensures { Wrote out.old out.new 0 result (text_of (retained_forms straighten [] (table_forms table.now))) }
{
    let writer = Writer { table, straighten };
    let mut i: usize = 0;
    let mut used: usize = 0;
    // Kept: as in `write_block`.
    while i < table.len() {
        let item = writer.write_item(i, true, &mut out[used..]);
        i = item.next;
        used += item.used;
    }
    used
}
