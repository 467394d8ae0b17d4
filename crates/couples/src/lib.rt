// Couples of critical pairs that cross: counted, and the first ones that fit put into lent buffers, as words or as bytes. Both buffers are of any length: a caller that wants
// one of the two forms, or the number alone, lends an empty buffer for the other. Pairs are given as the pair list has them, three words each.
#![tactic(auto)]

ghost use Rattle.std.specs.Prelude.{◌+◌, ◌*◌, ◌/◌, ◌<◌, ◌≤◌, ◌≡◌, length, get_or};
ghost use Rattle.limits.specs.Limits.{max_pairs, max_pair_words};
ghost use Rattle.couples.specs.Couples.{couple, crosses, couples_with, couples_of};
ghost use Rattle.couples.specs.Fitting.{as_words, as_bytes, put_at, CouplesPut, CouplesFound};
ghost use Rattle.couples.specs.Records.{claims_from, pair_of_words, pairs_from, pair_in};

pub use columns::Pair;
use limits::CLAIM_COUNT;

// The mask of a held set and a shared set.
#[tactic(auto, using(crate::proofs::Records::machine_claims))]
fn mask_from(held: u64, shared: u64) -> u64
    ensures { result ≡ claims_from held shared }
{
    (held << 32) | locks::shared_set(shared)
}

// The pair of three words.
#[tactic(auto, unfolding(columns::specs::Columns::pair_number))]
fn read_pair(words: &[u64; 3]) -> Pair
    ensures { pair_in result ≡ pair_of_words words.now }
{
    let [held, shared, word] = *words;
    Pair {
        mask: mask_from(held, shared),
        code: (word % CLAIM_COUNT as u64) as u32,
    }
}

// Pair i of a list.
#[tactic(auto, using(crate::proofs::Records::chunk_pair))]
pub fn pair_at(list: &[u64], i: usize) -> Pair
    requires { i < length list.now / 3 }
    ensures { pair_in result ≡ get_or (pairs_from list.now) i 0 }
{
    let (pairs, _) = list.as_chunks();
    read_pair(&pairs[i])
}

// Whether two pairs cross: what they have may stand together, and each one's wish may not stand beside what the other has.
#[tactic(auto, using(columns::proofs::Numbers::parts), unfolding(crate::specs::Couples::crosses))]
pub fn cross(v: Pair, w: Pair) -> bool
    ensures { result ≡ crosses (pair_in v) (pair_in w) }
{
    let bars = locks::barred(v.mask);
    bars & w.mask == 0
        && locks::has_claim(locks::barred(w.mask), columns::claim_in(v.code))
        && locks::has_claim(bars, columns::claim_in(w.code))
}

// Couple n into its place in a buffer of words, where it fits whole.
#[tactic(auto, using(crate::proofs::Loops::words_put, crate::proofs::Loops::words_full))]
fn put_words(words: &mut [u64], n: usize, v: Pair, w: Pair)
    ensures { words.new ≡ put_at 6 as_words words.old n (couple (pair_in v) (pair_in w)) }
{
    if n < words.len() / 6 {
        let six = [v.words(), w.words()];
        words[6 * n..6 * n + 6].copy_from_slice(six.as_flattened());
    }
}

// The same in a buffer of bytes.
#[tactic(auto, using(crate::proofs::Loops::bytes_put, crate::proofs::Loops::bytes_full))]
fn put_bytes(bytes: &mut [u8], n: usize, v: Pair, w: Pair)
    ensures { bytes.new ≡ put_at 48 as_bytes bytes.old n (couple (pair_in v) (pair_in w)) }
{
    if n < bytes.len() / 48 {
        let six = [v.words(), w.words()];
        buffers::put_pairs(six.as_flattened(), &mut bytes[48 * n..]);
    }
}

// The couples of one pair with those of a list, behind n others.
fn couples_with(v: Pair, others: &[u64], words: &mut [u64], bytes: &mut [u8], n: usize) -> usize
    requires { (length others.now ≤ max_pair_words) × (n ≤ max_pairs * max_pairs) }
    ensures couples_put { CouplesPut (couples_with (pair_in v) (pairs_from others.now)) n words.old words.new bytes.old bytes.new result }
    ensures upper_bound { result ≤ n + length others.now / 3 }
{
    let (pairs, _) = others.as_chunks();
    let mut count = n;
    for pair in pairs {
        let w = read_pair(pair);
        if cross(v, w) {
            put_words(words, count, v, w);
            put_bytes(bytes, count, v, w);
            count += 1;
        }
    }
    count
}

// All couples of two lists of pairs, counted; of each buffer the first ones that fit whole, the rest kept.
pub fn find_couples(one: &[u64], two: &[u64], words: &mut [u64], bytes: &mut [u8]) -> usize
    requires { (length one.now ≤ max_pair_words) × (length two.now ≤ max_pair_words) }
    ensures { CouplesFound (couples_of (pairs_from one.now) (pairs_from two.now)) words.old words.new bytes.old bytes.new result }
{
    let (pairs, _) = one.as_chunks();
    let mut count: usize = 0;
    for pair in pairs {
        count = couples_with(read_pair(pair), two, words, bytes, count);
    }
    count
}
