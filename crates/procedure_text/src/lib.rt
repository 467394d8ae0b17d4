// The text of a procedure: the rules, then the lines of the text that the procedure is.
#![tactic(auto)]

ghost use Rattle.plan.specs.Settled.{PlanTable};
ghost use Rattle.procs.specs.Laid.{Laid};
ghost use Rattle.parts.specs.Parts.{PartAt};
ghost use Rattle.procedure_text.specs.ProcText.{proc_text, table_lines};

use limits::MAX_FORMS;
use procs::Layout;

// The lines of a procedure of a table, empty where it is not there.
fn table_text<'a>(text: &'a [u8], table: &[u64], layout: Layout, proc: usize) -> &'a [u8]
    requires { PlanTable table.now × Laid table.now layout }
    ensures { PartAt text.entry (table_lines text.now table.now proc) result }
{
    if layout.procs <= proc {
        return &text[..0];
    }
    parts::proc_part(text, table, layout.starts[proc] as usize)
}

// The lines of a procedure of a text, empty where the plan is refused or the procedure is absent.
pub fn lines_of(text: &[u8], proc: usize) -> &[u8]
    ensures { PartAt text.entry (proc_text text.now proc) result }
{
    let mut table = [0u64; MAX_FORMS];
    match checked::read_text(text, &mut table) {
        Ok(plan) => table_text(text, &table[..plan.forms], plan.layout, proc),
        Err(_) => &text[..0],
    }
}
