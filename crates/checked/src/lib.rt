// The plan's rules over a text, in checking order, each tested over the whole text before the next; and of a text that keeps them the layout of its table and the space
// that a schedule needs.
#![tactic(auto)]

ghost use Rattle.std.specs.Prelude.{◌≡◌, ◌≤◌, length};
ghost use Rattle.limits.specs.Limits.{max_forms};
ghost use Rattle.plan.specs.Table.{table_forms, FormRoom};
ghost use Rattle.plan.specs.Settled.{PlanTable};
ghost use Rattle.plan.specs.Rules.{grammar_refusal, procs_refusal, forms_refusal, reading_of};
ghost use Rattle.procs.specs.Laid.{Laid};
ghost use Rattle.sizes.specs.Space.{ChecksSizes};
ghost use Rattle.checked.specs.Checks.{ChecksTable, Checks};

use limits::MAX_FORMS;
use plan::Bracket;
use procs::Layout;
use sizes::Space;
use text::Refusal;

// Of a text that keeps the rules: how many forms it has, the layout of their table, and the space that a schedule needs.
#[derive(Clone, Copy)]
pub struct CheckedText {
    pub forms: usize,
    pub layout: Layout,
    pub space: Space,
}

// Rules 4 to 8 over a table of forms, with a stack of its own for the blocks that are open.
// It is not put into its caller, so that the stack is gone where the other rules are asked.
#[inline(never)]
fn check_grammar(table: &[u64]) -> Result<usize, Refusal>
    requires { length table.now ≤ max_forms }
    ensures { result ≡ reading_of (grammar_refusal (table_forms table.now)) (length table.now) }
{
    let mut stack = [Bracket::OfStatement; MAX_FORMS];
    plan::check_forms(table, &mut stack)
}

// Rules 12, 13 and 9 over the table of a plan, and the space that a schedule needs.
// It is not put into its caller, so that its masks are gone where the rules before are asked.
#[inline(never)]
#[tactic(auto, using(procs::proofs::Answered::in_order, crate::proofs::Checked::kept_ranks))]
fn check_procs(table: &[u64], layout: Layout) -> Result<Space, Refusal>
    requires { PlanTable table.now × Laid table.now layout }
    ensures { ChecksSizes (procs_refusal (table_forms table.now)) table.now result }
{
    let masks = reach::reach_masks(table, layout);
    reach::check_recursion(table, layout, &masks)?;
    idle::check_idle(table, layout, &masks)?;
    sizes::check_sizes(table, layout, &masks)
}

// The rules over a table of forms: 4 to 8, 12, 13, 9.
#[tactic(auto, using(procs::proofs::Answered::in_order, crate::proofs::Checked::over_forms))]
fn check_table(table: &[u64]) -> Result<CheckedText, Refusal>
    requires { length table.now ≤ max_forms }
    ensures { ChecksTable (forms_refusal (table_forms table.now)) table.now result }
{
    let forms = check_grammar(table)?;
    let layout = procs::layout_of(table);
    let space = check_procs(table, layout)?;
    Ok(CheckedText {
        forms,
        layout,
        space,
    })
}

// The plan's rules in checking order, 2 to 8, 12, 13, 9; the forms of an accepted text stay in the table.
#[tactic(auto, using(crate::proofs::Checked::over_text))]
pub fn read_text(text: &[u8], table: &mut [u64]) -> Result<CheckedText, Refusal>
    requires { FormRoom text.now table.old }
    ensures { Checks text.now result table.new }
{
    let n = plan::read_forms(text, table)?;
    plan::in_file(text, check_table(&table[..n]))
}
