// A schedule from a path of each thread of a cycle to its pair: the way back along the paths (source 000, Lemma 4.3), which ends with a run from
// the start to a moment with a stuck set, and the largest such set there.
#![tactic(auto)]

ghost use Rattle.std.specs.Prelude.{◌≡◌, ◌+◌, ◌-◌, ◌*◌, ◌%◌, ◌^◌, ◌≤◌, ◌<◌, ◌&&◌, MatchBool, length, get_or, set, drop};
ghost use Rattle.std.specs.Int.Bits.{bit_and};
ghost use Rattle.limits.specs.Limits.{max_threads, claim_count, max_size, max_entries};
ghost use Rattle.laws.specs.Mask.{in_mask};
ghost use Rattle.semantics.specs.Retreat.{scan_back, JumpTo};
ghost use Rattle.semantics.specs.StuckRounds.{barred_by_members, waits_in, wanting, stuck_round, stuck_rounds};
ghost use Rattle.retreat.specs.Paths.{masks_of, InRows, Holding, barred_by_others, may_go_back, NoneMayGoBack};
ghost use Rattle.retreat.specs.Moves.{FirstBelow, SomeStepped, AtStart, steps_left, entry_of, Landed, Turned, WentBack};
ghost use Rattle.retreat.specs.Answer.{TargetsFit, Scheduled};

use limits::{MAX_ENTRIES, MAX_SIZE, MAX_THREADS};

// What a schedule is made from, beside the columns of steps: how many threads there are, and of each how long its path is, the mask of the claim that its
// block begins with, and that of the claim that it wants at its path's end.
#[derive(Clone, Copy)]
pub struct Targets {
    pub threads: usize,
    pub positions: [u64; MAX_THREADS],
    pub begins: [u64; MAX_THREADS],
    pub wanted: [u64; MAX_THREADS],
}

// How many entries the schedule has, and the largest stuck set at its end: bit t for thread t.
#[derive(Clone, Copy)]
pub struct Outcome {
    pub entries: usize,
    pub stuck: u8,
}

// What stays the same on the way back: how many threads there are, the mask of the claim that the block of each begins with, and the columns with the steps of their
// paths, those of thread t from MAX_SIZE × t on.
#[derive(Clone, Copy)]
struct Threads<'a> {
    count: usize,
    begins: [u64; MAX_THREADS],
    choices: &'a [u8],
    rows: &'a [u64],
    ghost few: { count ≤ max_threads },
    ghost turns: { max_entries ≤ length choices.now },
    ghost paths: { max_entries ≤ length rows.now },
}

// Where the threads are on the way back: the position of each on its path, and as masks the claim that it wants at the last target and what it has there.
#[derive(Clone, Copy)]
struct State {
    positions: [u64; MAX_THREADS],
    wanted: [u64; MAX_THREADS],
    masks: [u64; MAX_THREADS],
}

// Where a thread jumps to, and the claim that it wants there, as a mask.
#[derive(Clone, Copy)]
struct Landing {
    place: u64,
    wants: u64,
}

// The entry of a thread and a choice.
fn entry(thread: u16, choice: u8) -> u16
    requires { thread < max_threads }
    ensures { result ≡ thread + 8 * (choice % 4) }
{
    thread + 8 * u16::from(choice % 4)
}

// The set of thread t alone.
fn set_of(t: usize) -> u8
    requires { t < max_threads }
    ensures { result ≡ 2 ^ t }
{
    1 << t
}

// Whether thread t is in m.
fn is_member(m: u8, t: usize) -> bool
    requires { t < max_threads }
    ensures { result ≡ in_mask m t }
{
    m & (1 << t) != 0
}

impl Threads<'_> {
    // ---- what the threads have

    // What thread t has after j steps of its path.
    fn mask_at(&self, t: usize, j: u64) -> u64
        requires { (t < max_threads) × (j ≤ max_size) }
        ensures { result ≡ get_or (masks_of self.now.rows.now t) j 0 }
    {
        if j == 0 {
            return 0;
        }
        self.rows[MAX_SIZE * t + (j as usize - 1)]
    }

    // What each thread has at its position.
    // Kept: written into a lent table. Returned as a value, the way back of two threads took 23 µs in place of 17.
    fn fill_masks(&self, positions: &[u64; MAX_THREADS], masks: &mut [u64; MAX_THREADS])
        requires { InRows positions.now self.now.count }
        ensures { Holding self.now.rows.now positions.now masks.new self.now.count }
    {
        for t in 0..self.count {
            masks[t] = self.mask_at(t, positions[t]);
        }
    }

    // What may not stand beside what the threads other than k have.
    fn others_bar(&self, masks: &[u64; MAX_THREADS], k: usize) -> u64
        ensures { result ≡ barred_by_others masks.now self.now.count k }
    {
        (0..self.count)
            .filter(|&i| i != k)
            .fold(0, |all, i| all | locks::barred(masks[i]))
    }

    // ---- a step back

    // Whether thread k has stepped and may go back.
    fn can_go_back(
        &self,
        positions: &[u64; MAX_THREADS],
        masks: &[u64; MAX_THREADS],
        k: usize,
    ) -> bool
        requires { InRows positions.now self.now.count × Holding self.now.rows.now positions.now masks.now self.now.count × (k < self.now.count) }
        ensures { result ≡ may_go_back self.now.rows.now positions.now self.now.count k }
    {
        let j = positions[k];
        0 < j && self.mask_at(k, j - 1) & self.others_bar(masks, k) == 0
    }

    // The first thread that may go back.
    fn choose_back(&self, positions: &[u64; MAX_THREADS]) -> Option<usize>
        requires { InRows positions.now self.now.count }
        ensures { FirstBelow (may_go_back self.now.rows.now positions.now self.now.count) self.now.count result }
    {
        let mut masks = [0; MAX_THREADS];
        self.fill_masks(positions, &mut masks);
        (0..self.count).find(|&k| self.can_go_back(positions, &masks, k))
    }

    // Thread k goes back by a step: the entry of that step.
    fn step_back(&self, state: &mut State, k: usize) -> u16
        requires { (k < max_threads) × (0 < get_or state.old.positions k 0) × (get_or state.old.positions k 0 ≤ max_size) }
        ensures { (state.new ≡ record state.old { positions = set state.old.positions k (get_or state.old.positions k 0 - 1) })
            × (result ≡ entry_of self.now.choices.now state.old.positions k) }
    {
        let j = state.positions[k] - 1;
        state.positions[k] = j;
        let choice = self.choices[MAX_SIZE * k + j as usize];
        entry(k as u16, choice)
    }

    // ---- the jump

    // The last place of thread t, from j downward, at which it has not claim l.
    fn scan_back(&self, t: usize, l: u64, j: u64) -> u64
        requires { (t < max_threads) × (l < claim_count) × (j ≤ max_size) }
        ensures { result ≡ scan_back (masks_of self.now.rows.now t) l j }
    {
        for a in (1..=j).rev() {
            if !locks::has_claim(self.mask_at(t, a), l) {
                return a;
            }
        }
        0
    }

    // Where thread k, at position j, jumps to, and what it wants there: the lowest claim that its last step gave up and that may not stand beside what another thread has.
    fn land(&self, masks: &[u64; MAX_THREADS], k: usize, j: u64) -> Landing
        requires { (k < max_threads) × (j ≤ max_size)
            × (0 < j → 0 < bit_and (get_or (masks_of self.now.rows.now k) (j - 1) 0) (barred_by_others masks.now self.now.count k)) }
        ensures { JumpTo (masks_of self.now.rows.now k) (barred_by_others masks.now self.now.count k) (get_or self.now.begins k 0) j
            result.place result.wants }
    {
        if j == 0 {
            return Landing {
                place: 0,
                wants: self.begins[k],
            };
        }
        let both = self.mask_at(k, j - 1) & self.others_bar(masks, k);
        let l = u64::from(both.trailing_zeros());
        Landing {
            place: self.scan_back(k, l, j - 1),
            wants: locks::claim_bit(l),
        }
    }

    // Each thread jumps, where none may go back; what they have where they stood is what they have at the new target.
    // Kept: the clause on a length, here and in `turn`. A proof knows no longer how long an array is that was lent.
    fn jump(&self, state: &mut State)
        requires { InRows state.old.positions self.now.count × NoneMayGoBack self.now.rows.now state.old.positions self.now.count }
        ensures { (max_threads ≡ length state.new.positions) × Holding self.now.rows.now state.old.positions state.new.masks self.now.count
            × Landed self.now.rows.now self.now.begins self.now.count state.old.positions state.new.positions state.new.wanted self.now.count }
    {
        let mut masks = [0; MAX_THREADS];
        self.fill_masks(&state.positions, &mut masks);
        for k in 0..self.count {
            let to = self.land(&masks, k, state.positions[k]);
            state.positions[k] = to.place;
            state.wanted[k] = to.wants;
        }
        state.masks = masks;
    }

    // ---- the way back

    // Whether some thread has stepped.
    fn some_stepped(&self, state: &State) -> bool
        ensures { MatchBool result (SomeStepped state.now.positions self.now.count) (AtStart state.now.positions self.now.count) }
    {
        state.positions[..self.count].iter().any(|&j| 0 < j)
    }

    // One move: the first thread that may go back does, or all jump and the entries are forgotten. The entries stand from a place to the table's end, and then
    // from the place that is the answer.
    fn turn(&self, state: &mut State, entries: &mut [u16], place: usize) -> usize
        requires { InRows state.old.positions self.now.count × (0 < place) × (place ≤ length entries.old) }
        ensures { (result ≤ length entries.new) × (max_threads ≡ length state.new.positions)
            × Turned self.now.choices.now self.now.rows.now self.now.begins self.now.count state.old state.new (drop place entries.old) (drop result entries.new) }
    {
        let Some(k) = self.choose_back(&state.positions) else {
            self.jump(state);
            return entries.len();
        };
        entries[place - 1] = self.step_back(state, k);
        place - 1
    }

    // The way back from the targets to the start: the answer is the place from which the entries stand.
    fn go_back(&self, state: &mut State, entries: &mut [u16]) -> usize
        requires { InRows state.old.positions self.now.count × (max_entries ≤ length entries.old) }
        ensures { (result ≤ length entries.new)
            × WentBack self.now.choices.now self.now.rows.now self.now.begins self.now.count state.old state.new (drop result entries.new) }
    {
        let mut place = entries.len();
        while self.some_stepped(state) {
            place = self.turn(state, entries, place);
        }
        place
    }

    // ---- the stuck set

    // The threads that want a claim.
    fn wanting_set(&self, state: &State) -> u8
        ensures { result ≡ wanting self.now.count state.now.wanted }
    {
        (0..self.count)
            .filter(|&t| 0 < state.wanted[t])
            .fold(0, |all, t| all | set_of(t))
    }

    // What may not stand beside what the members of m other than t have.
    fn members_bar(&self, state: &State, m: u8, t: usize) -> u64
        ensures { result ≡ barred_by_members self.now.count state.now.masks m t }
    {
        (0..self.count)
            .filter(|&u| is_member(m, u) && u != t)
            .fold(0, |all, u| all | locks::barred(state.masks[u]))
    }

    // Whether thread t is in m and wants what may not stand beside what another member has.
    fn is_waiting(&self, state: &State, m: u8, t: usize) -> bool
        requires { t < max_threads }
        ensures { result ≡ in_mask m t && waits_in self.now.count state.now.wanted state.now.masks m t }
    {
        is_member(m, t) && state.wanted[t] & self.members_bar(state, m, t) != 0
    }

    // The members of m that want what may not stand beside what another member has.
    fn stuck_round(&self, state: &State, m: u8) -> u8
        ensures { result ≡ stuck_round self.now.count state.now.wanted state.now.masks m }
    {
        (0..self.count)
            .filter(|&t| self.is_waiting(state, m, t))
            .fold(0, |all, t| all | set_of(t))
    }

    // The largest stuck set: of the threads that want a claim, as many rounds as there are threads leave it.
    fn stuck_set(&self, state: &State) -> u8
        ensures { result ≡ stuck_rounds self.now.count self.now.count state.now.wanted state.now.masks }
    {
        let mut m = self.wanting_set(state);
        for _round in 0..self.count {
            m = self.stuck_round(state, m);
        }
        m
    }
}

// ---- the schedule

// A schedule to a deadlock, from the paths of a cycle's threads to their pairs. The path of thread t is positions[t] steps of the columns from MAX_SIZE × t on,
// each its choice and the mask of what is had after it. The schedule fills the start of `entries`, which has room for as many steps as
// the paths have together, and the rest is kept.
pub fn schedule(choices: &[u8], rows: &[u64], targets: Targets, entries: &mut [u16]) -> Outcome
    requires { TargetsFit choices.now rows.now targets × (steps_left targets.positions targets.threads ≤ length entries.old) }
    ensures { Scheduled choices.now rows.now targets entries.old result entries.new }
{
    let threads = Threads {
        count: targets.threads,
        begins: targets.begins,
        choices,
        rows,
    };
    let mut state = State {
        positions: targets.positions,
        wanted: targets.wanted,
        masks: [0; MAX_THREADS],
    };
    threads.fill_masks(&targets.positions, &mut state.masks);
    let mut table = [0; MAX_ENTRIES];
    let place = threads.go_back(&mut state, &mut table);
    let made = &table[place..];
    entries[..made.len()].copy_from_slice(made);
    Outcome {
        entries: made.len(),
        stuck: threads.stuck_set(&state),
    }
}
