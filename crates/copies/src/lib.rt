// The tidy copy and the straightened copy of a plan text: the forms of an accepted plan, or of that plan straightened, in 01's bare form, into a lent output; and what the programs
// `tidy` and `straight` print.
#![tactic(auto)]

ghost use Rattle.std.specs.Prelude.{◌≤◌, length};
ghost use Rattle.limits.specs.Limits.{max_bytes};
ghost use Rattle.laws.specs.Wrote.{Wrote};
ghost use Rattle.copies.specs.Copies.{copy_of, Copied, CopiedNumber, printed_copy};

use limits::{MAX_BYTES, MAX_FORMS};
use text::Refusal;

// The tidy copy of a text, or the straightened one.
pub fn write_copy(text: &[u8], straighten: bool, out: &mut [u8]) -> Result<usize, Refusal>
    ensures { Copied (copy_of straighten text.now) text.now out.old result out.new }
{
    if out.len() < MAX_BYTES {
        return Err(Refusal { rule: 1, line: 0 });
    }
    let mut table = [0u64; MAX_FORMS];
    let plan = checked::read_text(text, &mut table)?;
    Ok(bare_text::write_forms(&table[..plan.forms], straighten, out))
}

// The same with the answer as a number.
pub fn copy_number(text: &[u8], straighten: bool, out: &mut [u8]) -> u64
    ensures { CopiedNumber (copy_of straighten text.now) text.now out.old result out.new }
{
    answers::counted_number(write_copy(text, straighten, out))
}

// What a program prints of a text: its tidy copy or the straightened one, or the line of its refusal.
pub fn put_printed(text: &[u8], straighten: bool, out: &mut [u8]) -> usize
    requires { max_bytes ≤ length out.old }
    ensures { Wrote out.old out.new 0 result (printed_copy straighten text.now) }
{
    match write_copy(text, straighten, out) {
        Ok(n) => n,
        Err(refusal) => report_lines::put_refused(out, 0, refusal.rule, refusal.line),
    }
}
