// The plan text as a table of forms (rules 2 and 3), and the rules 4 to 8: each is a pass over the table. A rule over the table names a form by its number, from 1, in the
// place of a line; `in_file` gives the form's line.
#![tactic(auto)]

ghost use Rattle.std.specs.Prelude.{◌≡◌, ◌+◌, ◌-◌, ◌≤◌, ◌<◌, length, position};
ghost use Rattle.limits.specs.Limits.{max_bytes};
ghost use Rattle.text.specs.Forms.{number_in, is_proc};
ghost use Rattle.text.specs.Lines.{line_at, unreadable_line};
ghost use Rattle.plan.specs.Table.{code_of, form_at, table_forms, with_line, FormRoom};
ghost use Rattle.plan.specs.Structure.{close_block, advance_of, misplaced_form};
ghost use Rattle.plan.specs.Limits.{Small, depth_after, counted, over_limit, past_limit_form, rule_number, tested_by, least_bad, breaks, breaking_form, count_if};
ghost use Rattle.plan.specs.Rules.{refused_at, lines_refusal, references_refusal, grammar_refusal, reading_of, read_in_file, Tabled};

use limits::{LOCK_COUNT, MAX_BRACKETS, MAX_BYTES, MAX_PROCS, MAX_STATEMENTS, MAX_THREADS};
use text::{Form, Line, Place, Refusal};

// What may stand next, by rule 4.
#[derive(Clone, Copy, PartialEq, Eq)]
pub enum Mode {
    // the plan
    AtStart,
    // a procedure
    FirstProc,
    // a procedure or a thread
    NextProc,
    // a thread or the plan's end
    NextThread,
    // nothing
    Complete,
    // a statement
    FirstStatement,
    // a statement or the block's end
    NextStatement,
    // `(one`
    NeedsOne,
    // `(two`
    NeedsTwo,
    // the either's end
    EndsEither,
}

// A bracket that is open within a procedure: that of a hold, a share or a loop, `(one` or `(two`.
#[derive(Clone, Copy, PartialEq, Eq)]
pub enum Bracket {
    OfStatement,
    OfOne,
    OfTwo,
}

// What a form does to the machine of rule 4: it goes on in a mode, opens a bracket, or closes one and goes on in a mode.
#[derive(Clone, Copy)]
pub enum Advance {
    Stay(Mode),
    Push(Bracket),
    Pop(Mode),
}

// What has been read of a text: procedures, statements, threads, and the brackets open within the procedure.
#[derive(Clone, Copy, Default)]
pub struct Counts {
    pub procs: usize,
    pub statements: usize,
    pub threads: usize,
    pub depth: usize,
}

// The code of a form: its kind plus 16 times its number.
// Kept: codes in words, since a table of forms is memory of 64-bit words that callers lend (no heap, fixed memory). No `From` stands here, since `Form` is of crate text.
#[tactic(auto, unfolding(crate::specs::Table::code_of, text::specs::Forms::number_in))]
fn code_of(form: Form) -> u64
    ensures { result ≡ code_of form }
{
    match form {
        Form::Plan => 0,
        Form::Proc => 1,
        Form::Thread(n) => 2 + 16 * u64::from(n),
        Form::Close => 3,
        Form::Skip => 4,
        Form::Call(n) => 5 + 16 * u64::from(n),
        Form::Hold(n) => 6 + 16 * u64::from(n),
        Form::Loop => 7,
        Form::Either => 8,
        Form::One => 9,
        Form::Two => 10,
        Form::Share(n) => 11 + 16 * u64::from(n),
    }
}

// The form of a code.
// Kept: a function and no `From`, since docs/PROMISES.md names `plan::form_at`.
#[tactic(auto, unfolding(crate::specs::Table::form_at))]
pub fn form_at(code: u64) -> Form
    ensures { result ≡ form_at code }
{
    let kind = code % 16;
    let n = (code / 16 % 65536) as u16;
    match kind {
        0 => Form::Plan,
        1 => Form::Proc,
        2 => Form::Thread(n),
        4 => Form::Skip,
        5 => Form::Call(n),
        6 => Form::Hold(n),
        7 => Form::Loop,
        8 => Form::Either,
        9 => Form::One,
        10 => Form::Two,
        11 => Form::Share(n),
        _ => Form::Close,
    }
}

// The end of a block, by the innermost open bracket.
#[tactic(auto, unfolding(crate::specs::Structure::close_block))]
fn close_block(top: Option<Bracket>) -> Advance
    ensures { result ≡ close_block top }
{
    match top {
        Some(Bracket::OfStatement) => Advance::Pop(Mode::NextStatement),
        Some(Bracket::OfOne) => Advance::Pop(Mode::NeedsTwo),
        Some(Bracket::OfTwo) => Advance::Pop(Mode::EndsEither),
        None => Advance::Stay(Mode::NextProc),
    }
}

// What a form does in a mode with the innermost open bracket, if it has a place there.
#[tactic(auto, unfolding(crate::specs::Structure::advance_of))]
fn advance_of(mode: Mode, top: Option<Bracket>, form: Form) -> Option<Advance>
    ensures { result ≡ advance_of mode top form }
{
    use Advance::*;
    use Bracket::*;
    use Form::*;
    use Mode::*;
    let step = match (form, mode) {
        (Plan, AtStart) => Stay(FirstProc),
        (Proc, FirstProc | NextProc) => Stay(FirstStatement),
        (Thread(_), NextProc | NextThread) => Stay(NextThread),
        (Close, NextStatement) => close_block(top),
        (Close, EndsEither) => Stay(NextStatement),
        (Close, NextThread) => Stay(Complete),
        (Skip | Call(_), FirstStatement | NextStatement) => Stay(NextStatement),
        (Hold(_) | Loop | Share(_), FirstStatement | NextStatement) => Push(OfStatement),
        (Either, FirstStatement | NextStatement) => Stay(NeedsOne),
        (One, NeedsOne) => Push(OfOne),
        (Two, NeedsTwo) => Push(OfTwo),
        _ => return None,
    };
    Some(step)
}

// Rule 4 over a table: the stack is lent, as long as the table.
// Kept: a slice with a depth beside it, since there is no heap.
fn check_structure(table: &[u64], stack: &mut [Bracket]) -> Result<usize, Refusal>
    requires { length table.now ≤ length stack.old }
    ensures { result ≡ reading_of (refused_at 4 (misplaced_form (table_forms table.now))) (length table.now) }
{
    let mut mode = Mode::AtStart;
    let mut depth: usize = 0;
    for (i, &code) in table.iter().enumerate() {
        let top = stack[..depth].last().copied();
        let step = advance_of(mode, top, form_at(code)).ok_or(Refusal {
            rule: 4,
            line: i + 1,
        })?;
        match step {
            Advance::Stay(m) => {
                mode = m;
            }
            Advance::Push(bracket) => {
                stack[depth] = bracket;
                depth += 1;
                mode = Mode::FirstStatement;
            }
            Advance::Pop(m) => {
                depth = depth.saturating_sub(1);
                mode = m;
            }
        }
    }
    if mode == Mode::Complete {
        return Ok(table.len());
    }
    Err(Refusal {
        rule: 4,
        line: table.len() + 1,
    })
}

// The brackets open within the procedure behind a form, where `depth` were open before.
#[tactic(auto, unfolding(text::specs::Forms::kind_in))]
fn depth_after(form: Form, depth: usize) -> usize
    requires { depth ≤ 65536 }
    ensures { result ≡ depth_after form depth }
{
    match form {
        Form::Close => depth.saturating_sub(1),
        _ => depth + usize::from(text::is_bracket(form)),
    }
}

impl Counts {
    // One form more.
    #[tactic(auto, unfolding(crate::specs::Limits::counted))]
    fn with(self, form: Form) -> Counts
        requires { Small self 65536 }
        ensures { result ≡ counted self form }
    {
        Counts {
            procs: self.procs + usize::from(text::is_proc(form)),
            statements: self.statements + usize::from(text::is_statement(form)),
            threads: self.threads + usize::from(text::is_thread(form)),
            depth: depth_after(form, self.depth),
        }
    }

    // Rule 5: a count past its limit.
    #[tactic(auto, unfolding(crate::specs::Limits::over_limit, laws::specs::Choice::pick))]
    fn over_limit(self) -> bool
        ensures { result ≡ over_limit self }
    {
        MAX_PROCS < self.procs
            || MAX_STATEMENTS < self.statements
            || MAX_THREADS < self.threads
            || MAX_BRACKETS < self.depth
    }
}

// Rule 5 over a table.
#[tactic(auto, using(crate::proofs::Passes::limits_pass))]
fn check_limits(table: &[u64]) -> Result<usize, Refusal>
    requires { length table.now < 65536 }
    ensures { result ≡ reading_of (refused_at 5 (past_limit_form (table_forms table.now))) (count_if is_proc (table_forms table.now)) }
{
    let mut c = Counts::default();
    for (i, &code) in table.iter().enumerate() {
        c = c.with(form_at(code));
        if c.over_limit() {
            return Err(Refusal {
                rule: 5,
                line: i + 1,
            });
        }
    }
    Ok(c.procs)
}

// The rule that tests a form's number, if one does.
// Kept: a rule is its number here, as in the refusal that names it (`text::Refusal`).
#[tactic(auto, unfolding(crate::specs::Limits::tested_by, text::specs::Forms::kind_in))]
fn tested_by(form: Form) -> Option<u8>
    ensures { rule_number result ≡ tested_by form }
{
    match form {
        Form::Thread(_) => Some(8),
        Form::Call(_) => Some(7),
        Form::Hold(_) | Form::Share(_) => Some(6),
        _ => None,
    }
}

// A form's number, or 0.
// Kept: 0 where it has none, since docs/PROMISES.md names `plan::number_in` by the definition `number_in`, which says 0.
#[tactic(auto, unfolding(text::specs::Forms::number_in))]
pub fn number_in(form: Form) -> usize
    ensures { result ≡ number_in form }
{
    match form {
        Form::Thread(n) | Form::Call(n) | Form::Hold(n) | Form::Share(n) => usize::from(n),
        _ => 0,
    }
}

// The least number that breaks rule 6, 7 or 8, where there are so many procedures.
#[tactic(auto, unfolding(crate::specs::Limits::least_bad, laws::specs::Choice::pick))]
fn least_bad(rule: u8, procs: usize) -> usize
    ensures { result ≡ least_bad rule procs }
{
    if rule == 6 { LOCK_COUNT } else { procs }
}

// The place of the first form of a table that breaks rule 6, 7 or 8, where there are so many procedures.
#[tactic(auto, unfolding(crate::specs::Limits::breaks, laws::specs::Choice::pick))]
fn first_breaking(table: &[u64], rule: u8, procs: usize) -> Option<usize>
    requires { 0 < rule }
    ensures { result ≡ position (λ code. breaks rule procs (form_at code)) table.now }
{
    let least = least_bad(rule, procs);
    table.iter().position(|&code| {
        let form = form_at(code);
        tested_by(form) == Some(rule) && least <= number_in(form)
    })
}

// Rule 6, 7 or 8 over a table of so many procedures.
fn check_numbers(table: &[u64], rule: u8, procs: usize) -> Result<usize, Refusal>
    requires { (0 < rule) × (procs ≡ count_if is_proc (table_forms table.now)) }
    ensures { result ≡ reading_of (refused_at rule (breaking_form rule (table_forms table.now))) (length table.now) }
{
    match first_breaking(table, rule, procs) {
        Some(i) => Err(Refusal { rule, line: i + 1 }),
        None => Ok(table.len()),
    }
}

// Rules 6 to 8 over a table of so many procedures.
#[tactic(auto, using(crate::proofs::Passes::in_order), unfolding(crate::specs::Rules::references_refusal))]
fn check_references(table: &[u64], procs: usize) -> Result<usize, Refusal>
    requires { procs ≡ count_if is_proc (table_forms table.now) }
    ensures { result ≡ reading_of (references_refusal (table_forms table.now)) (length table.now) }
{
    check_numbers(table, 6, procs)?;
    check_numbers(table, 7, procs)?;
    check_numbers(table, 8, procs)
}

// Rules 4 to 8 over a table, each over the whole of it before the next.
#[tactic(auto, using(crate::proofs::Passes::in_order), unfolding(crate::specs::Rules::grammar_refusal))]
pub fn check_forms(table: &[u64], stack: &mut [Bracket]) -> Result<usize, Refusal>
    requires { (length table.now < 65536) × (length table.now ≤ length stack.old) }
    ensures { result ≡ reading_of (grammar_refusal (table_forms table.now)) (length table.now) }
{
    check_structure(table, stack)?;
    let procs = check_limits(table)?;
    check_references(table, procs)
}

// The line at a place, its form into place n of the table.
// Kept: `let .. else` on what is read, the form that document 01 asks for here (docs/DECISIONS.md, "The form to use in each place").
fn put_line(text: &[u8], place: Place, table: &mut [u64], n: usize) -> Result<Line, Refusal>
    requires { n < length table.old }
    ensures { (result ≡ line_at text.now place.at place.line) × (table.new ≡ with_line result n table.old) }
{
    let read = text::read_line(text, place.at, place.line);
    let Ok(line) = read else {
        return read;
    };
    table[n] = code_of(line.form);
    read
}

// The text's forms into a table, line after line (rule 3), what is to be passed over left out. A form's line has two bytes at least, so a table of half the bytes has
// room.
// Kept: a `while` on the place, since reading a line and passing over what follows it give the next place.
fn fill(text: &[u8], table: &mut [u64]) -> Result<usize, Refusal>
    requires { (length text.now ≤ max_bytes) × FormRoom text.now table.old }
    ensures { Tabled (refused_at 3 (unreadable_line text.now)) text.now result table.new }
{
    let mut here = text::pass_over(text, Place { at: 0, line: 1 });
    let mut n: usize = 0;
    while here.at < text.len() {
        let line = put_line(text, here, table, n)?;
        n += 1;
        here = text::pass_over(
            text,
            Place {
                at: line.next,
                line: here.line + 1,
            },
        );
    }
    Ok(n)
}

// A plan text into a lent table of forms, by the rules 2 and 3. A table of MAX_FORMS has room for every text.
pub fn read_forms(text: &[u8], table: &mut [u64]) -> Result<usize, Refusal>
    requires { FormRoom text.now table.old }
    ensures { Tabled (lines_refusal text.now) text.now result table.new }
{
    if MAX_BYTES < text.len() {
        return Err(Refusal { rule: 2, line: 0 });
    }
    fill(text, table)
}

// The answer of a check of a text's forms, with the line in the file of the form that a refusal names.
pub fn in_file<T>(text: &[u8], reading: Result<T, Refusal>) -> Result<T, Refusal>
    ensures { result ≡ read_in_file text.now reading }
{
    reading.map_err(|refusal| Refusal {
        rule: refusal.rule,
        line: text::line_of(text, refusal.line),
    })
}
