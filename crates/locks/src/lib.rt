// The bit of each lock and of each claim, sets of claims as masks and what stands against one, the words of a pair in a buffer, and an entry of a schedule taken apart.
#![tactic(auto)]

ghost use Rattle.std.specs.Prelude.{◌≡◌, ◌+◌, ◌*◌, ◌/◌, ◌%◌, ◌<◌, ◌^◌};
ghost use Rattle.limits.specs.Limits.{lock_count, mask_size, claim_count};
ghost use Rattle.laws.specs.Mask.{in_mask};
ghost use Rattle.semantics.specs.Claims.{by_share, by_hold, claim_word, word_claim};
ghost use Rattle.semantics.specs.Paths.{fresh_in};
ghost use Rattle.semantics.specs.Conflict.{bars};

use limits::LOCK_COUNT;

// The wiring table: entry k is the bit of lock k in a mask. docs/WIRING.md shows it.
const LOCK_BITS: [u32; LOCK_COUNT] = [
    0x00000001, 0x00000002, 0x00000004, 0x00000008, 0x00000010, 0x00000020, 0x00000040, 0x00000080,
    0x00000100, 0x00000200, 0x00000400, 0x00000800, 0x00001000, 0x00002000, 0x00004000, 0x00008000,
    0x00010000, 0x00020000, 0x00040000, 0x00080000, 0x00100000, 0x00200000, 0x00400000, 0x00800000,
    0x01000000, 0x02000000, 0x04000000, 0x08000000, 0x10000000, 0x20000000, 0x40000000, 0x80000000,
];

// The bit of a lock in a mask.
pub fn lock_bit(lock: u64) -> u64
    requires { lock < lock_count }
    ensures { result ≡ 2 ^ lock }
{
    u64::from(LOCK_BITS[lock as usize])
}

// ---- claims: a lock by share has its own number, and by hold 32 more

// The bit of a claim in a mask: that of its lock, for a hold 32 digits higher. There is no jump.
#[tactic(auto, using(crate::proofs::StandAgainst::claim_power))]
pub fn claim_bit(claim: u64) -> u64
    requires { claim < claim_count }
    ensures { result ≡ 2 ^ claim }
{
    lock_bit(claim % 32) << (claim / 32 * 32)
}

// Whether a claim is in a mask.
#[tactic(auto, using(laws::proofs::Masks::test_power))]
pub fn has_claim(mask: u64, claim: u64) -> bool
    requires { claim < claim_count }
    ensures { result ≡ in_mask mask claim }
{
    mask & claim_bit(claim) != 0
}

// Whether a claim is fresh to who has those of a mask (02, change 9): a hold that is had keeps the share of its lock from being fresh too.
#[tactic(auto, using(crate::proofs::StandAgainst::machine_fresh))]
pub fn fresh_in(mask: u64, claim: u64) -> bool
    requires { claim < claim_count }
    ensures { result ≡ fresh_in mask claim }
{
    !has_claim(mask | (mask >> 32), claim)
}

// The claims that may not stand beside those of a mask: a hold of each of its locks, and a share of each that is held.
#[tactic(auto, using(crate::proofs::StandAgainst::machine_bars))]
pub fn barred(mask: u64) -> u64
    ensures { result ≡ bars mask }
{
    let held = mask >> 32;
    ((mask | held) << 32) | held
}

// The claims of a lock's number in a text, which may be too large for a lock.
#[tactic(auto, unfolding(semantics::specs::Claims::by_share))]
pub fn by_share(lock: u16) -> u64
    ensures { (result ≡ by_share lock) × (result < 2 ^ 18) }
{
    let l = u64::from(lock);
    l / 32 * 64 + l % 32
}

#[tactic(auto, unfolding(semantics::specs::Claims::by_hold))]
pub fn by_hold(lock: u16) -> u64
    ensures { result ≡ by_hold lock }
{
    by_share(lock) + 32
}

// ---- a pair in a buffer: "held set, shared set, wanted lock times 2 plus 1 for a hold"

pub fn held_set(mask: u64) -> u64
    ensures { result ≡ mask / mask_size }
{
    mask >> 32
}

pub fn shared_set(mask: u64) -> u64
    ensures { result ≡ mask % mask_size }
{
    mask & 0xffffffff
}

pub fn claim_word(claim: u64) -> u64
    requires { claim < claim_count }
    ensures { result ≡ claim_word claim }
{
    claim % 32 * 2 + claim / 32
}

pub fn word_claim(word: u64) -> u64
    requires { word < claim_count }
    ensures { result ≡ word_claim word }
{
    word / 2 + word % 2 * 32
}

// ---- an entry of a schedule: a thread in its 3 lowest digits, a choice above them

pub fn thread_in(entry: u64) -> u64
    ensures { result ≡ entry % 8 }
{
    entry & 7
}

pub fn rest_in(entry: u64) -> u64
    ensures { result ≡ entry / 8 }
{
    entry >> 3
}
