// The procedures that are reachable from the threads of a plan, by what each procedure reaches, and rule 13: an idle procedure, which no thread names or reaches through calls.
#![tactic(auto)]

ghost use Rattle.std.specs.Prelude.{◌≡◌, ◌<◌, length};
ghost use Rattle.std.specs.List.{All};
ghost use Rattle.limits.specs.Limits.{max_procs};
ghost use Rattle.semantics.specs.CallMasks.{join_reached, reachable_mask};
ghost use Rattle.plan.specs.Table.{table_forms};
ghost use Rattle.plan.specs.Settled.{PlanTable};
ghost use Rattle.plan.specs.Rules.{idle};
ghost use Rattle.procs.specs.Laid.{Laid};
ghost use Rattle.procs.specs.Ruled.{Ruled};
ghost use Rattle.reach.specs.Reached.{ReachTable};

use procs::Layout;
use reach::{has_proc, proc_bit};
use text::Refusal;

// A procedure and those that it reaches, joined to a mask.
#[tactic(auto, unfolding(semantics::specs::CallMasks::join_reached, reach::specs::Passes::proc_bit))]
fn join_reached(joined: u64, p: usize, masks: &[u64]) -> u64
    requires { (p < max_procs) × (p < length masks.now) }
    ensures { result ≡ join_reached masks.now joined p }
{
    joined | (proc_bit(p) | masks[p])
}

// The procedures that threads run and those that they reach, as a mask.
fn reachable_procs(runs: &[u64], masks: &[u64]) -> u64
    requires { All (λ p. (p < max_procs) × (p < length masks.now)) runs.now }
    ensures { result ≡ reachable_mask masks.now runs.now }
{
    runs.iter()
        .fold(0, |joined, &p| join_reached(joined, p as usize, masks))
}

// Rule 13, by what each procedure reaches: the `(proc` of the lowest idle procedure, by its number among the forms.
pub fn check_idle(table: &[u64], layout: Layout, masks: &[u64]) -> Result<(), Refusal>
    requires { PlanTable table.now × Laid table.now layout × ReachTable table.now masks.now }
    ensures { Ruled (idle (table_forms table.now)) (λ _. Unit {0}) result }
{
    let reachable = reachable_procs(&layout.runs[..layout.threads], masks);
    procs::refuse_lowest(table, layout, 13, |p| !has_proc(reachable, p))
}
