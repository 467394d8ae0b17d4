// The sizes of a plan's procedures, rule 9, and the space that a schedule of the plan needs.
#![tactic(auto)]

ghost use Rattle.std.specs.Prelude.{◌≡◌, ◌+◌, ◌≤◌, ◌<◌, min, length, get_or};
ghost use Rattle.limits.specs.Limits.{max_threads, size_room};
ghost use Rattle.semantics.specs.Plan.{Ranks};
ghost use Rattle.plan.specs.Table.{table_forms};
ghost use Rattle.plan.specs.Settled.{PlanTable, table_plan};
ghost use Rattle.plan.specs.Rules.{too_large};
ghost use Rattle.procs.specs.Laid.{Laid};
ghost use Rattle.reach.specs.Reached.{ReachTable};
ghost use Rattle.sizes.specs.Passes.{cost_of, known_size, size_from};
ghost use Rattle.sizes.specs.Sized.{SizesAsked, SizesFound, FoundAt, FoundRound, Sized, ThreadsCut, Summed};
ghost use Rattle.sizes.specs.Space.{ChecksSizes};

use limits::{MAX_PROCS, MAX_SIZE, MAX_THREADS, SIZE_ROOM};
use procs::Layout;
use text::{Form, Refusal};

// Sizes are 64-bit numbers in their table: the largest that rule 9 allows, and one more, where they are cut off.
const LARGEST: u64 = MAX_SIZE as u64;

const CAP: u64 = SIZE_ROOM as u64;

// The space that a schedule needs: how many threads there are, the size of each one's procedure, and their sum.
#[derive(Clone, Copy)]
pub struct Space {
    pub threads: usize,
    pub each: [u64; MAX_THREADS],
    pub sum: usize,
}

// What the sizes are found from: a plan's table with its layout, and what each procedure reaches.
#[derive(Clone, Copy)]
struct Asked<'a> {
    table: &'a [u64],
    layout: &'a Layout,
    masks: &'a [u64],
}

// The sizes of the procedures of a mask, those that were found.
#[derive(Clone, Copy)]
struct Sizes {
    each: [u64; MAX_PROCS],
    found: u64,
}

// A sum, cut off at SIZE_ROOM.
fn add_capped(a: u64, b: u64) -> u64
    ensures { result ≡ min size_room (a + b) }
{
    a.saturating_add(b).min(CAP)
}

// The size that a table has of a procedure, 0 where it has none.
fn known_size(sizes: &[u64; MAX_PROCS], p: usize) -> u64
    ensures { result ≡ known_size sizes.now p }
{
    sizes.get(p).copied().unwrap_or(0)
}

// What a form adds to the size of its procedure.
#[tactic(auto, unfolding(crate::specs::Passes::cost_of, text::specs::Forms::kind_in, text::specs::Forms::number_in))]
fn cost_of(form: Form, sizes: &[u64; MAX_PROCS]) -> u64
    ensures { result ≡ min size_room (cost_of (known_size sizes.now) form) }
{
    match form {
        Form::Skip | Form::Either => 1,
        Form::Call(p) => add_capped(1, known_size(sizes, usize::from(p))),
        Form::Hold(_) | Form::Loop | Form::Share(_) => 2,
        _ => 0,
    }
}

// The size of the procedure whose block starts at a place, by a table of sizes.
#[tactic(auto, using(crate::proofs::Sums::all_added))]
fn size_from(table: &[u64], sizes: &[u64; MAX_PROCS], place: usize) -> u64
    ensures { result ≡ size_from table.now sizes.now place }
{
    procs::rest_of_proc(table, place).iter().fold(
        0,
        |size, &code| add_capped(size, cost_of(plan::form_at(code), sizes)),
    )
}

impl Sizes {
    // The size of procedure p, if those of all that it reaches are found.
    fn find_size(&mut self, asked: Asked, p: usize)
        requires { SizesAsked asked.table.now asked.layout.now asked.masks.now × (p < asked.layout.now.procs) × SizesFound asked.table.now self.old.each self.old.found }
        ensures { SizesFound asked.entry.table.now self.new.each self.new.found × FoundAt (get_or asked.entry.masks.now p 0) p self.old.found self.new.found }
    {
        if reach::has_proc(self.found, p) {
            return;
        }
        if asked.masks[p] | self.found != self.found {
            return;
        }
        let size = size_from(asked.table, &self.each, asked.layout.starts[p] as usize);
        self.each[p] = size;
        self.found |= reach::proc_bit(p);
    }

    // One round: the size of each procedure of which all that it reaches were found before.
    #[tactic(auto, using(crate::proofs::Found::rounds))]
    fn find_round(&mut self, asked: Asked)
        requires { SizesAsked asked.table.now asked.layout.now asked.masks.now × SizesFound asked.table.now self.old.each self.old.found }
        ensures { SizesFound asked.entry.table.now self.new.each self.new.found × FoundRound asked.entry.masks.now asked.entry.layout.now.procs self.old.found self.new.found }
    {
        for p in 0..asked.layout.procs {
            self.find_size(asked, p);
        }
    }
}

// The size of each procedure, cut off at SIZE_ROOM, callees first: a round finds those whose callees are found, and as many rounds as there are procedures find all.
fn find_sizes(asked: Asked) -> [u64; MAX_PROCS]
    requires { SizesAsked asked.table.now asked.layout.now asked.masks.now }
    ensures { Sized asked.entry.table.now result }
{
    let mut sizes = Sizes {
        each: [0; MAX_PROCS],
        found: 0,
    };
    for _ in 0..asked.layout.procs {
        sizes.find_round(asked);
    }
    sizes.each
}

// The size of each thread's procedure, by the table of sizes, and their sum.
fn thread_space(runs: &[u64], sizes: &[u64; MAX_PROCS]) -> Space
    requires { (length runs.now ≤ max_threads) × ThreadsCut runs.now (length runs.now) sizes.now }
    ensures { Summed runs.now (length runs.now) sizes.now result }
{
    let mut each = [0; MAX_THREADS];
    let mut sum = 0;
    for (t, &p) in runs.iter().enumerate() {
        let size = known_size(sizes, p as usize);
        each[t] = size;
        sum += size as usize;
    }
    Space {
        threads: runs.len(),
        each,
        sum,
    }
}

// Rule 9: the `(proc` of the lowest procedure whose size exceeds MAX_SIZE, where it is known what each procedure reaches; and the space that the plan needs.
pub fn check_sizes(table: &[u64], layout: Layout, masks: &[u64]) -> Result<Space, Refusal>
    requires { PlanTable table.now × Laid table.now layout × ReachTable table.now masks.now × Ranks (table_plan table.now).procs }
    ensures { ChecksSizes (too_large (table_forms table.now)) table.now result }
{
    let sizes = find_sizes(Asked {
        table,
        layout: &layout,
        masks,
    });
    procs::refuse_lowest(table, layout, 9, |p| LARGEST < sizes[p])?;
    Ok(thread_space(&layout.runs[..layout.threads], &sizes))
}
