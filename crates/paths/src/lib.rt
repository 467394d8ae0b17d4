// The path to a critical pair: the walk of a procedure, with its steps written down as it goes.
#![tactic(auto)]

ghost use Rattle.std.specs.Prelude.{◌≡◌, ◌+◌, ◌<◌, ◌≤◌, length, get_or, take};
ghost use Rattle.limits.specs.Limits.{claim_count, max_size};
ghost use Rattle.text.specs.declared.Form.TheVariants.{Call, Loop, Either};
ghost use Rattle.plan.specs.Grammar.{claim_form};
ghost use Rattle.columns.specs.Columns.{pair_number, steps};
ghost use Rattle.semantics.specs.Paths.{step_of, gives, put as put_step};
ghost use Rattle.paths.specs.Walks.{ClaimOf, PutAt, WalkReady, Walks, StatementWalks, PathAsked, PathWritten};
ghost use Rattle.paths.specs.Wanted.{FirstWantedAt};

use limits::CLAIM_COUNT;
use std::ops::ControlFlow;
use text::Form;

// What is walked through and looked for: the forms of a plan, in a table, the places where its procedures begin, and the mask and the code of a pair.
#[derive(Clone, Copy)]
struct Task<'a> {
    table: &'a [u64],
    starts: &'a [u64],
    aim: u64,
    code: u32,
}

// Where a walk goes on: the place of the table, and how many steps are written.
#[derive(Clone, Copy)]
pub struct Spot {
    pub next: usize,
    pub count: usize,
}

// Where a walk stopped: it broke off at the hold that was looked for, with so many steps written, or it goes on.
pub type Stop = ControlFlow<usize, Spot>;

// How a walk goes: how deep calls may go, and what is had.
#[derive(Clone, Copy)]
pub struct Way {
    pub depth: usize,
    pub mask: u64,
}

// What a path leads to: the procedure, and the mask and the code of one of its pairs.
#[derive(Clone, Copy)]
pub struct Goal {
    pub procedure: usize,
    pub aim: u64,
    pub code: u32,
}

// The claim of a hold or a share, if a claim has its number.
fn claim_of(form: Form) -> Option<u64>
    ensures { ClaimOf form result }
{
    let claim = match form {
        Form::Hold(l) => locks::by_hold(l),
        Form::Share(l) => locks::by_share(l),
        _ => return None,
    };
    (claim < CLAIM_COUNT as u64).then_some(claim)
}

// Whether a claim that is made with those of a mask gives the pair that is looked for.
fn gives_pair(task: &Task, mask: u64, claim: u64) -> bool
    requires { claim < claim_count }
    ensures { result ≡ gives (pair_number task.now.aim task.now.code) mask claim }
{
    let code = columns::code_of(claim);
    locks::fresh_in(mask, claim) && columns::is_same(mask, code, task.aim, task.code)
}

// One step more, with the mask after it, where both columns have room: how many there are then.
fn put(choices: &mut [u8], masks: &mut [u64], n: usize, choice: u8, mask: u64) -> usize
    requires { (n ≤ length (steps choices.old masks.old)) × (choice < 4) }
    ensures { PutAt (steps choices.old masks.old) n (step_of choice mask) result (steps choices.new masks.new) }
{
    if n < choices.len() && n < masks.len() {
        choices[n] = choice;
        masks[n] = mask;
        return n + 1;
    }
    n
}

// The place behind a place, within the table.
fn after(table: &[u64], at: usize) -> usize
    ensures { (at ≤ result) × (at < length table.now → result ≡ at + 1) }
{
    if at < table.len() { at + 1 } else { at }
}

// Where procedure p begins in the table; 0 for a number that no procedure has.
fn start_of(starts: &[u64], p: u16) -> usize
    ensures { p < length starts.now → result ≡ get_or starts.now p 0 }
{
    starts
        .get(usize::from(p))
        .map_or(0, |&start| start as usize)
}

// ---- the walk
// Kept: the two columns are lent side by side. A struct with two `&mut` would ask each contract for what becomes of its loans too.

// The walk of the block at a spot, along its statements, up to the hold or share that gives the pair, or to the block's end.
#[cycle(walks)]
fn walk(task: &Task, way: Way, from: Spot, choices: &mut [u8], masks: &mut [u64]) -> Stop
    requires { WalkReady task.now.table.now task.now.starts.now (steps choices.old masks.old) from.count }
    ensures { Walks task.now.table.now (pair_number task.now.aim task.now.code) way from.next (steps choices.old masks.old) from.count
        (take from.count (steps choices.old masks.old)) from.count result (steps choices.new masks.new) }
{
    let mut at = from;
    while let Some(&code) = task.table.get(at.next) {
        let form = plan::form_at(code);
        at.next += 1;
        if let Form::Close = form {
            return ControlFlow::Continue(at);
        }
        at = walk_statement(task, way, at, form, choices, masks)?;
    }
    ControlFlow::Continue(at)
}

// A step with this choice, and the walk of the block at a spot behind it.
#[cycle(walks)]
fn enter(
    task: &Task,
    way: Way,
    from: Spot,
    choice: u8,
    choices: &mut [u8],
    masks: &mut [u64],
) -> Stop
    requires { WalkReady task.now.table.now task.now.starts.now (steps choices.old masks.old) from.count × (choice < 4) }
    ensures { Walks task.now.table.now (pair_number task.now.aim task.now.code) way from.next (steps choices.old masks.old) from.count
        (put_step (take from.count (steps choices.old masks.old)) choice way.mask) (from.count + 1) result (steps choices.new masks.new) }
{
    let count = put(choices, masks, from.count, choice, way.mask);
    walk(task, way, Spot { count, ..from }, choices, masks)
}

// One statement: that of a form, with its other forms from a spot on.
#[cycle(walks)]
fn walk_statement(
    task: &Task,
    way: Way,
    from: Spot,
    form: Form,
    choices: &mut [u8],
    masks: &mut [u64],
) -> Stop
    requires { WalkReady task.now.table.now task.now.starts.now (steps choices.old masks.old) from.count }
    ensures { StatementWalks task.now.table.now (pair_number task.now.aim task.now.code) way form from.next (steps choices.old masks.old) from.count result
        (steps choices.new masks.new) }
{
    if let Some(claim) = claim_of(form) {
        return walk_hold(task, way, from, claim, choices, masks);
    }
    match form {
        Form::Skip => {
            let count = put(choices, masks, from.count, 0, way.mask);
            ControlFlow::Continue(Spot { count, ..from })
        }
        Form::Call(p) => walk_call(task, way, from, p, choices, masks),
        Form::Loop => walk_loop(task, way, from, choices, masks),
        Form::Either => walk_either(task, way, from, choices, masks),
        _ => ControlFlow::Continue(from),
    }
}

// A call of procedure p.
#[cycle(walks)]
fn walk_call(
    task: &Task,
    way: Way,
    from: Spot,
    p: u16,
    choices: &mut [u8],
    masks: &mut [u64],
) -> Stop
    requires { WalkReady task.now.table.now task.now.starts.now (steps choices.old masks.old) from.count }
    ensures { StatementWalks task.now.table.now (pair_number task.now.aim task.now.code) way (Call p) from.next (steps choices.old masks.old) from.count result
        (steps choices.new masks.new) }
{
    let Some(depth) = way.depth.checked_sub(1) else {
        let count = put(choices, masks, from.count, 0, way.mask);
        return ControlFlow::Continue(Spot { count, ..from });
    };
    let begin = Spot {
        next: start_of(task.starts, p),
        ..from
    };
    let inside = enter(task, Way { depth, ..way }, begin, 0, choices, masks)?;
    ControlFlow::Continue(Spot {
        count: inside.count,
        ..from
    })
}

// A hold or a share, with its claim, unless it gives the pair.
#[cycle(walks)]
fn walk_hold(
    task: &Task,
    way: Way,
    from: Spot,
    claim: u64,
    choices: &mut [u8],
    masks: &mut [u64],
) -> Stop
    requires { WalkReady task.now.table.now task.now.starts.now (steps choices.old masks.old) from.count × (claim < claim_count) }
    ensures { StatementWalks task.now.table.now (pair_number task.now.aim task.now.code) way (claim_form claim) from.next (steps choices.old masks.old) from.count result
        (steps choices.new masks.new) }
{
    if gives_pair(task, way.mask, claim) {
        return ControlFlow::Break(from.count);
    }
    let held = Way {
        mask: way.mask | locks::claim_bit(claim),
        ..way
    };
    let inside = enter(task, held, from, 0, choices, masks)?;
    let count = put(choices, masks, inside.count, 0, way.mask);
    ControlFlow::Continue(Spot { count, ..inside })
}

// A loop: its block, and then it is left from where it began.
#[cycle(walks)]
fn walk_loop(task: &Task, way: Way, from: Spot, choices: &mut [u8], masks: &mut [u64]) -> Stop
    requires { WalkReady task.now.table.now task.now.starts.now (steps choices.old masks.old) from.count }
    ensures { StatementWalks task.now.table.now (pair_number task.now.aim task.now.code) way Loop from.next (steps choices.old masks.old) from.count result
        (steps choices.new masks.new) }
{
    let inside = enter(task, way, from, 1, choices, masks)?;
    let count = put(choices, masks, from.count, 2, way.mask);
    ControlFlow::Continue(Spot { count, ..inside })
}

// An either: the block of one, and then, from where it began, that of two; each of the two has a form in front, and there is one behind both.
#[cycle(walks)]
fn walk_either(task: &Task, way: Way, from: Spot, choices: &mut [u8], masks: &mut [u64]) -> Stop
    requires { WalkReady task.now.table.now task.now.starts.now (steps choices.old masks.old) from.count }
    ensures { StatementWalks task.now.table.now (pair_number task.now.aim task.now.code) way Either from.next (steps choices.old masks.old) from.count result
        (steps choices.new masks.new) }
{
    let next = after(task.table, from.next);
    let one = enter(task, way, Spot { next, ..from }, 1, choices, masks)?;
    let next = after(task.table, one.next);
    let two = enter(task, way, Spot { next, ..from }, 2, choices, masks)?;
    let next = after(task.table, two.next);
    ControlFlow::Continue(Spot { next, ..two })
}

// ---- what is asked for

// The path to the hold or share of the goal's procedure that gives its pair, into the start of the columns: each step is its choice and the mask after it. What stands behind the
// path is left open.
pub fn path_to(
    table: &[u64],
    starts: &[u64],
    procs: usize,
    goal: Goal,
    choices: &mut [u8],
    masks: &mut [u64],
) -> usize
    requires { PathAsked table.now starts.now procs goal.procedure (pair_number goal.aim goal.code) × (max_size ≤ length (steps choices.old masks.old)) }
    ensures { PathWritten table.now goal.procedure (pair_number goal.aim goal.code) result (steps choices.new masks.new) }
{
    let task = Task {
        table,
        starts,
        aim: goal.aim,
        code: goal.code,
    };
    let way = Way {
        depth: procs - 1,
        mask: 0,
    };
    let from = Spot {
        next: starts[goal.procedure] as usize,
        count: 0,
    };
    match walk(&task, way, from, choices, masks) {
        ControlFlow::Break(count) => count,
        ControlFlow::Continue(_) => unreachable!(),
    }
}

// The claim that the block at a place begins with, as a mask: none where it begins with neither a hold nor a share.
pub fn first_hold(table: &[u64], start: usize) -> u64
    ensures { FirstWantedAt table.now start result }
{
    let Some(&code) = table.get(start) else {
        return 0;
    };
    match claim_of(plan::form_at(code)) {
        Some(claim) => locks::claim_bit(claim),
        None => 0,
    }
}
