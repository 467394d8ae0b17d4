// What each procedure of a plan reaches through calls, as a mask of procedures for each, and rule 12: a procedure that reaches itself.
#![tactic(auto)]

ghost use Rattle.std.specs.Prelude.{◌≡◌, map, ◌≤◌, ◌<◌, length, take};
ghost use Rattle.limits.specs.Limits.{max_procs};
ghost use Rattle.laws.specs.Mask.{in_mask};
ghost use Rattle.semantics.specs.CallMasks.{join_through, warshall_round};
ghost use Rattle.plan.specs.Table.{table_forms};
ghost use Rattle.plan.specs.Settled.{PlanTable};
ghost use Rattle.plan.specs.Rules.{recursive};
ghost use Rattle.procs.specs.Laid.{Laid};
ghost use Rattle.procs.specs.Ruled.{Ruled};
ghost use Rattle.reach.specs.Passes.{proc_bit, called_by, calls_from};
ghost use Rattle.reach.specs.Reached.{ReachTable};

use limits::MAX_PROCS;
use procs::Layout;
use text::{Form, Refusal};

// Whether a procedure is in a mask.
pub fn has_proc(mask: u64, p: usize) -> bool
    requires { p < max_procs }
    ensures { result ≡ in_mask mask p }
{
    mask & (1u64 << p) != 0
}

// The bit of a procedure in a mask, 0 for a number that no procedure can have.
#[tactic(auto, using(laws::proofs::Masks::shl_one), unfolding(crate::specs::Passes::proc_bit))]
pub fn proc_bit(p: usize) -> u64
    ensures { result ≡ proc_bit p }
{
    if p < MAX_PROCS { 1u64 << p } else { 0 }
}

// The procedure that a form calls, as a mask.
#[tactic(auto, unfolding(crate::specs::Passes::called_by, text::specs::Forms::kind_in, text::specs::Forms::number_in))]
fn called_by(form: Form) -> u64
    ensures { result ≡ called_by form }
{
    match form {
        Form::Call(p) => proc_bit(usize::from(p)),
        _ => 0,
    }
}

// The procedures that the procedure whose block starts at a place calls.
#[tactic(auto, using(crate::proofs::Called::all_called))]
fn calls_from(table: &[u64], place: usize) -> u64
    ensures { result ≡ calls_from table.now place }
{
    procs::rest_of_proc(table, place)
        .iter()
        .fold(0, |mask, &code| mask | called_by(plan::form_at(code)))
}

// For each procedure those that it calls, by where the procedures begin.
fn call_masks(table: &[u64], starts: &[u64]) -> [u64; MAX_PROCS]
    requires { length starts.now ≤ max_procs }
    ensures { take (length starts.now) result ≡ map (calls_from table.now) starts.now }
{
    let mut masks = [0; MAX_PROCS];
    for (p, &start) in starts.iter().enumerate() {
        masks[p] = calls_from(table, start as usize);
    }
    masks
}

// A mask with `reached`, the mask of procedure k, joined to it if it has k.
#[tactic(auto, unfolding(semantics::specs::CallMasks::join_through))]
fn join_through(k: usize, reached: u64, mask: u64) -> u64
    requires { k < max_procs }
    ensures { result ≡ join_through k reached mask }
{
    if has_proc(mask, k) {
        mask | reached
    } else {
        mask
    }
}

// A round of Warshall's algorithm: what procedure k reaches is joined to what each procedure that reaches k reaches.
fn warshall_round(masks: &mut [u64], k: usize)
    requires { (k < max_procs) × (k < length masks.old) }
    ensures { masks.new ≡ warshall_round k masks.old }
{
    let reached = masks[k];
    for mask in masks.iter_mut() {
        *mask = join_through(k, reached, *mask);
    }
}

// For each procedure those that it reaches: one procedure after another is let between.
#[tactic(auto, using(crate::proofs::Rounds::rounds))]
pub fn reach_masks(table: &[u64], layout: Layout) -> [u64; MAX_PROCS]
    requires { PlanTable table.now × Laid table.now layout }
    ensures { ReachTable table.now result }
{
    let mut masks = call_masks(table, &layout.starts[..layout.procs]);
    for k in 0..layout.procs {
        warshall_round(&mut masks[..layout.procs], k);
    }
    masks
}

// Rule 12, by what each procedure reaches: the `(proc` of the lowest procedure that reaches itself, by its number among the forms.
pub fn check_recursion(table: &[u64], layout: Layout, masks: &[u64]) -> Result<(), Refusal>
    requires { PlanTable table.now × Laid table.now layout × ReachTable table.now masks.now }
    ensures { Ruled (recursive (table_forms table.now)) (λ _. Unit {0}) result }
{
    procs::refuse_lowest(table, layout, 12, |p| has_proc(masks[p], p))
}
