// Pairs as two columns, the masks of what is had and the codes of what is wanted: the one place that knows what a code is. A code is the third word of a pair, "wanted lock times 2 plus 1
// for a hold": its lowest 6 digits, the others count for nothing where pairs are compared.
#![tactic(auto)]

ghost use Rattle.std.specs.Prelude.{◌≡◌, ◌+◌, ◌*◌, ◌%◌, ◌<◌, ◌≤◌, length, take, get_or, eqb, ltb};
ghost use Rattle.laws.specs.Wrote.{Wrote};
ghost use Rattle.limits.specs.Limits.{claim_count};
ghost use Rattle.semantics.specs.Claims.{claim_word, word_claim};
ghost use Rattle.semantics.specs.Pairs.{had_of, wanted_of, pair_words, words_of};
ghost use Rattle.columns.specs.Columns.{pair_number, pair_in, pair_numbers, places, candidate_of, pair_by};

use limits::CLAIM_COUNT;

// The lowest digits of a code.
const CODE_MASK: u32 = CLAIM_COUNT as u32 - 1;

// The third word of a pair with this code.
pub fn word_in(code: u32) -> u64
    ensures { (result ≡ code % claim_count) × (result < claim_count) }
{
    u64::from(code & CODE_MASK)
}

// The claim that a code wants.
pub fn claim_in(code: u32) -> u64
    ensures { (result ≡ word_claim (code % claim_count)) × (result < claim_count) }
{
    locks::word_claim(word_in(code))
}

// The code of a claim.
pub fn code_of(claim: u64) -> u32
    requires { claim < claim_count }
    ensures { result ≡ claim_word claim }
{
    locks::claim_word(claim) as u32
}

// A pair: the mask of what it has and the code of what it wants.
#[derive(Clone, Copy)]
pub struct Pair {
    pub mask: u64,
    pub code: u32,
}

#[tactic(auto, unfolding(crate::specs::Columns::pair_number))]
impl Pair {
    // Whether it stands before another one: by the masks, held locks before shared ones, and where they are the same by the codes.
    pub fn is_below(self, other: Pair) -> bool
        ensures { result ≡ ltb (pair_in self) (pair_in other) }
    {
        (self.mask, word_in(self.code)) < (other.mask, word_in(other.code))
    }

    // Whether it is the same as another one.
    pub fn is_same(self, other: Pair) -> bool
        ensures { result ≡ eqb (pair_in self) (pair_in other) }
    {
        (self.mask, word_in(self.code)) == (other.mask, word_in(other.code))
    }

    // Its three words: "held set, shared set, wanted lock times 2 plus 1 for a hold".
    pub fn words(self) -> [u64; 3]
        ensures { result ≡ pair_words (pair_in self) }
    {
        let held = locks::held_set(self.mask);
        let shared = locks::shared_set(self.mask);
        [held, shared, word_in(self.code)]
    }
}

// Whether two pairs are the same, by their masks and codes.
pub fn is_same(mask: u64, code: u32, other: u64, than: u32) -> bool
    ensures { result ≡ eqb (pair_number mask code) (pair_number other than) }
{
    let pair = Pair { mask, code };
    pair.is_same(Pair {
        mask: other,
        code: than,
    })
}

// Pair i of two columns.
#[tactic(auto, unfolding(crate::specs::Columns::pair_numbers))]
pub fn pair_at(masks: &[u64], codes: &[u32], i: usize) -> Pair
    requires { (i < length masks.now) × (i < length codes.now) }
    ensures { pair_in result ≡ get_or (pair_numbers masks.now codes.now) i 0 }
{
    Pair {
        mask: masks[i],
        code: codes[i],
    }
}

// ---- pairs in a buffer

// The words of a pair, at a place.
pub fn put_pair(out: &mut [u64], at: usize, pair: Pair)
    requires { at + 3 ≤ length out.old }
    ensures { Wrote out.old out.new at (at + 3) (pair_words (pair_in pair)) }
{
    out[at..at + 3].copy_from_slice(&pair.words());
}

// The words of the first n pairs of two columns, at the start of a buffer.
pub fn put_words(masks: &[u64], codes: &[u32], n: usize, out: &mut [u64])
    requires { (n ≤ length masks.now) × (n ≤ length codes.now) × (3 * n ≤ length out.old) }
    ensures { Wrote out.old out.new 0 (3 * n) (words_of (take n (pair_numbers masks.now codes.now))) }
{
    for i in 0..n {
        put_pair(out, 3 * i, pair_at(masks, codes, i));
    }
}

// ---- candidates of a search: the pairs of all threads stand in columns of so many places and are not moved; a candidate is one number, thread + 8 × code + 512 × place

pub const PLACES: usize = 4096;

const PLACE_MASK: u32 = PLACES as u32 - 1;

#[tactic(auto, unfolding(crate::specs::Columns::candidate_of))]
pub fn candidate_of(thread: u64, code: u32, place: usize) -> u32
    requires { (thread < 8) × (place < places) }
    ensures { result ≡ candidate_of thread code place }
{
    (place as u32) * 512 + (code & CODE_MASK) * 8 + thread as u32
}

// The claims that the pair of a candidate has.
#[tactic(auto, unfolding(crate::specs::Columns::pair_by, crate::specs::Columns::pair_number))]
pub fn locks_in(masks: &[u64; PLACES], c: u32) -> u64
    ensures { result ≡ had_of (pair_by masks.now c) }
{
    masks[((c >> 9) & PLACE_MASK) as usize]
}

// The claim that it wants.
#[tactic(auto, unfolding(crate::specs::Columns::pair_by, crate::specs::Columns::pair_number))]
pub fn wanted_in(masks: &[u64; PLACES], c: u32) -> u64
    ensures { (result ≡ wanted_of (pair_by masks.now c)) × (result < claim_count) }
{
    claim_in(c >> 3)
}

// The thread of a candidate.
pub fn thread_in(c: u32) -> u64
    ensures { (result ≡ c % 8) × (result < 8) }
{
    u64::from(c & 7)
}
