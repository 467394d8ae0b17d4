// The limits of a plan, for code: the one place where their values stand. specs/Limits.antt has the same for contracts and says where each is from.
#![tactic(auto)]

ghost use Rattle.std.specs.Prelude.{◌≡◌};
ghost use Rattle.limits.specs.Limits.{max_bytes, max_forms, max_procs, max_statements, max_threads, max_brackets, lock_count, claim_count, max_size, size_room, max_pairs, max_pair_words, max_listed, max_entries};

pub const MAX_BYTES: usize = 32768;

pub const MAX_FORMS: usize = 16384;

pub const MAX_PROCS: usize = 64;

pub const MAX_STATEMENTS: usize = 1024;

pub const MAX_THREADS: usize = 6;

pub const MAX_BRACKETS: usize = 16;

pub const LOCK_COUNT: usize = 32;

pub const CLAIM_COUNT: usize = 2 * LOCK_COUNT;

pub const MAX_SIZE: usize = 1024;

pub const SIZE_ROOM: usize = MAX_SIZE + 1;

pub const MAX_PAIRS: usize = 511;

pub const MAX_PAIR_WORDS: usize = 3 * MAX_PAIRS;

pub const MAX_LISTED: usize = MAX_THREADS * MAX_PAIRS;

pub const MAX_ENTRIES: usize = MAX_THREADS * MAX_SIZE;

// The limits that rules name.
#[derive(Clone, Copy)]
pub struct Named {
    pub bytes: usize,
    pub procs: usize,
    pub statements: usize,
    pub threads: usize,
    pub brackets: usize,
    pub locks: usize,
    pub size: usize,
    pub pairs: usize,
}

// The limits that follow from them.
#[derive(Clone, Copy)]
pub struct Derived {
    pub forms: usize,
    pub claims: usize,
    pub sizes: usize,
    pub words: usize,
    pub listed: usize,
    pub entries: usize,
}

// Each limit of the code is its twin of specs/Limits.antt.
pub fn named_limits() -> Named
    ensures { (result.bytes ≡ max_bytes) × (result.procs ≡ max_procs) × (result.statements ≡ max_statements) × (result.threads ≡ max_threads) × (result.brackets ≡ max_brackets)
        × (result.locks ≡ lock_count) × (result.size ≡ max_size) × (result.pairs ≡ max_pairs) }
{
    Named {
        bytes: MAX_BYTES,
        procs: MAX_PROCS,
        statements: MAX_STATEMENTS,
        threads: MAX_THREADS,
        brackets: MAX_BRACKETS,
        locks: LOCK_COUNT,
        size: MAX_SIZE,
        pairs: MAX_PAIRS,
    }
}

pub fn derived_limits() -> Derived
    ensures { (result.forms ≡ max_forms) × (result.claims ≡ claim_count) × (result.sizes ≡ size_room) × (result.words ≡ max_pair_words) × (result.listed ≡ max_listed) × (result.entries ≡ max_entries) }
{
    Derived {
        forms: MAX_FORMS,
        claims: CLAIM_COUNT,
        sizes: SIZE_ROOM,
        words: MAX_PAIR_WORDS,
        listed: MAX_LISTED,
        entries: MAX_ENTRIES,
    }
}
