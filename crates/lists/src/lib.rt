// The pair lists of a plan's threads, one after another in two columns.
#![tactic(auto)]

ghost use Rattle.std.specs.Prelude.{◌+◌, ◌≤◌, ◌<◌, length};
ghost use Rattle.limits.specs.Limits.{max_pairs};
ghost use Rattle.laws.specs.Wrote.{Wrote};
ghost use Rattle.semantics.specs.Pairs.{pair_list};
ghost use Rattle.columns.specs.Columns.{pair_numbers};
ghost use Rattle.plan.specs.Settled.{RulesKept, table_plan};
ghost use Rattle.procs.specs.Laid.{Laid};
ghost use Rattle.lists.specs.Lists.{ListsAsked, ThreadLists};

use limits::MAX_PAIRS;
use procs::Layout;

// The pair list of procedure p, from place `at` of two columns on.
fn list_from(
    table: &[u64],
    layout: Layout,
    p: usize,
    masks: &mut [u64],
    codes: &mut [u32],
    at: usize,
) -> usize
    requires { RulesKept table.now × Laid table.now layout × (p < layout.procs) × (at + max_pairs ≤ length masks.old) × (at + max_pairs ≤ length codes.old) }
    ensures { Wrote (pair_numbers masks.old codes.old) (pair_numbers masks.new codes.new) at (at + result)
        (pair_list (table_plan table.now).procs p) }
{
    pairs::collect_columns(table, layout, p, &mut masks[at..], &mut codes[at..])
}

// The pairs of each thread's procedure from place MAX_PAIRS × thread of two columns on, and how many they are.
pub fn thread_lists(
    table: &[u64],
    layout: Layout,
    masks: &mut [u64],
    codes: &mut [u32],
    counts: &mut [u64],
)
    requires { ListsAsked table.now layout (pair_numbers masks.old codes.old) counts.old }
    ensures { ThreadLists table.now layout.threads (pair_numbers masks.new codes.new) counts.new }
{
    for t in 0..layout.threads {
        let p = layout.runs[t] as usize;
        counts[t] = list_from(table, layout, p, masks, codes, MAX_PAIRS * t) as u64;
    }
}
