// The tables that a schedule to a cycle is made from: the path of each of its threads to its pair, what each thread begins with and what it wants.
#![tactic(auto)]

ghost use Rattle.std.specs.Prelude.{◌≡◌, ◌%◌, ◌≤◌, ◌<◌, length};
ghost use Rattle.limits.specs.Limits.{max_entries};
ghost use Rattle.columns.specs.Columns.{pair_number, steps, pair_by};
ghost use Rattle.targets.specs.Tables.{proc_of, begin_of, LaidPlan, CycleAsked, PathsPrepared, AtStarts, Target, RowWritten, MemberPut};

use columns::PLACES;
use limits::{MAX_SIZE, MAX_THREADS};
use paths::Goal;
use procs::Layout;
use retreat::Targets;

// A plan's table of forms, with its layout.
#[derive(Clone, Copy)]
struct Plan<'a> {
    table: &'a [u64],
    layout: &'a Layout,
}

impl Plan<'_> {
    // The procedure that thread t runs.
    fn proc_of(&self, t: usize) -> usize
        requires { LaidPlan self.now.table.now self.now.layout.now × (t < self.now.layout.now.threads) }
        ensures { (result ≡ proc_of self.now.table.now t) × (result < self.now.layout.now.procs) }
    {
        self.layout.runs[t] as usize
    }

    // The claim that thread t begins with, as a mask.
    fn begin_of(&self, t: usize) -> u64
        requires { LaidPlan self.now.table.now self.now.layout.now × (t < self.now.layout.now.threads) }
        ensures { result ≡ begin_of self.now.table.now t }
    {
        let start = self.layout.starts[self.proc_of(t)];
        paths::first_hold(self.table, start as usize)
    }

    // Each thread at its start: no steps, and it wants what it begins with.
    fn at_starts(&self) -> Targets
        requires { LaidPlan self.now.table.now self.now.layout.now }
        ensures { AtStarts self.now.table.now self.now.layout.now.threads result }
    {
        let threads = self.layout.threads;
        let mut begins = [0; MAX_THREADS];
        for t in 0..threads {
            begins[t] = self.begin_of(t);
        }
        Targets {
            threads,
            positions: [0; MAX_THREADS],
            begins,
            wanted: begins,
        }
    }

    // The path of thread t to the pair with a mask and a code, into its row of the columns of steps: how many steps it has.
    fn put_path(&self, t: usize, aim: u64, code: u32, choices: &mut [u8], rows: &mut [u64]) -> usize
        requires { LaidPlan self.now.table.now self.now.layout.now × Target self.now.table.now self.now.layout.now.threads t (pair_number aim code)
            × (max_entries ≤ length choices.old) × (max_entries ≤ length rows.old) }
        ensures { RowWritten self.now.table.now t (pair_number aim code) (steps choices.old rows.old) result (steps choices.new rows.new) }
    {
        let goal = Goal {
            procedure: self.proc_of(t),
            aim,
            code,
        };
        let at = MAX_SIZE * t;
        let end = at + MAX_SIZE;
        paths::path_to(
            self.table,
            &self.layout.starts,
            self.layout.procs,
            goal,
            &mut choices[at..end],
            &mut rows[at..end],
        )
    }

    // The member of the cycle that a candidate is: its path into its row, its length and its wanted claim into the tables.
    fn put_member(
        &self,
        masks: &[u64; PLACES],
        c: u32,
        targets: &mut Targets,
        choices: &mut [u8],
        rows: &mut [u64],
    )
        requires { LaidPlan self.now.table.now self.now.layout.now × Target self.now.table.now self.now.layout.now.threads (c % 8) (pair_by masks.now c)
            × (max_entries ≤ length choices.old) × (max_entries ≤ length rows.old) }
        ensures { MemberPut self.now.table.now (c % 8) (pair_by masks.now c) targets.old (steps choices.old rows.old) targets.new (steps choices.new rows.new) }
    {
        let t = columns::thread_in(c) as usize;
        let aim = columns::locks_in(masks, c);
        let count = self.put_path(t, aim, c >> 3, choices, rows);
        targets.positions[t] = count as u64;
        targets.wanted[t] = locks::claim_bit(columns::wanted_in(masks, c));
    }
}

// The tables for `retreat::schedule`, from a cycle of k pairs as candidates: the path of each of its threads to its pair, in a row of
// MAX_SIZE places of the columns, with its length and the claim that is wanted there; the other threads stay at their start.
pub fn thread_paths(
    masks: &[u64; PLACES],
    table: &[u64],
    layout: Layout,
    chosen: &[u32],
    k: usize,
    choices: &mut [u8],
    rows: &mut [u64],
) -> Targets
    requires { CycleAsked masks.now table.now layout chosen.now k × (max_entries ≤ length choices.old) × (max_entries ≤ length rows.old) }
    ensures { PathsPrepared masks.now table.now chosen.now k choices.new rows.new result }
{
    let plan = Plan {
        table,
        layout: &layout,
    };
    let mut targets = plan.at_starts();
    for &c in &chosen[..k] {
        plan.put_member(masks, c, &mut targets, choices, rows);
    }
    targets
}
