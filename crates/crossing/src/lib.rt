// Where two threads of a plan cross: the rules, then the pair lists of the two threads, then their couples, as words into the caller's buffer, or as bytes.
#![tactic(auto)]

ghost use Rattle.std.specs.Prelude.{◌≡◌, ◌≤◌, ◌<◌, length};
ghost use Rattle.limits.specs.Limits.{max_pair_words};
ghost use Rattle.semantics.specs.Plan.{thread_proc};
ghost use Rattle.plan.specs.Rules.{are_no_two};
ghost use Rattle.plan.specs.Settled.{RulesKept, table_plan};
ghost use Rattle.procs.specs.Laid.{Laid};
ghost use Rattle.pairs.specs.Words.{WordsOfPairs};
ghost use Rattle.crossing.specs.Crossed.{TableLists, TextLists, CouplesIn, Crossed, CrossedBytes};

use limits::{MAX_FORMS, MAX_PAIR_WORDS};
use procs::Layout;
use text::Refusal;

// How many pairs the first and the second thread have.
#[derive(Clone, Copy)]
pub struct TwoLists {
    pub first: usize,
    pub second: usize,
}

// The pairs of the procedure that thread t of a table runs, three words each.
fn thread_pairs(table: &[u64], layout: Layout, t: usize, list: &mut [u64]) -> usize
    requires { RulesKept table.now × Laid table.now layout × (t < layout.threads) × (max_pair_words ≤ length list.old) }
    ensures { WordsOfPairs table.now (thread_proc (table_plan table.now) t) list.old result list.new }
{
    let runs = layout.runs;
    let p = runs[t] as usize;
    pairs::collect_words(table, layout, p, list)
}

// Whether of n threads one of the two is not there, or both are the same.
#[tactic(auto, using(std::proofs::lemmas::Bool::Decides::nat_tests), unfolding(plan::specs::Rules::are_no_two))]
fn are_no_two(n: usize, first: usize, second: usize) -> bool
    ensures { result ≡ are_no_two n first second }
{
    n <= first || n <= second || first == second
}

// The pairs of two threads of a table (rule 14 where one of them is not there, or both are the same).
fn table_lists(
    table: &[u64],
    layout: Layout,
    first: usize,
    second: usize,
    one: &mut [u64],
    two: &mut [u64],
) -> Result<TwoLists, Refusal>
    requires { RulesKept table.now × Laid table.now layout × (max_pair_words ≤ length one.old) × (max_pair_words ≤ length two.old) }
    ensures { TableLists table.now first second result one.new two.new }
{
    if are_no_two(layout.threads, first, second) {
        return Err(Refusal { rule: 14, line: 0 });
    }
    Ok(TwoLists {
        first: thread_pairs(table, layout, first, one),
        second: thread_pairs(table, layout, second, two),
    })
}

// The pairs of two threads of a text.
pub fn two_lists(
    text: &[u8],
    first: usize,
    second: usize,
    one: &mut [u64],
    two: &mut [u64],
) -> Result<TwoLists, Refusal>
    requires { (max_pair_words ≤ length one.old) × (max_pair_words ≤ length two.old) }
    ensures { TextLists text.now first second result one.new two.new }
{
    let mut table = [0u64; MAX_FORMS];
    let plan = checked::read_text(text, &mut table)?;
    table_lists(&table[..plan.forms], plan.layout, first, second, one, two)
}

// The couples of two threads of a text, into a buffer of words and one of bytes, by way of their pair lists.
fn cross_threads(
    text: &[u8],
    first: usize,
    second: usize,
    words: &mut [u64],
    bytes: &mut [u8],
) -> Result<usize, Refusal>
    ensures { CouplesIn text.now first second words.old words.new bytes.old bytes.new result }
{
    let mut one = [0u64; MAX_PAIR_WORDS];
    let mut two = [0u64; MAX_PAIR_WORDS];
    let lists = two_lists(text, first, second, &mut one, &mut two)?;
    let pairs = &one[..3 * lists.first];
    let others = &two[..3 * lists.second];
    Ok(couples::find_couples(pairs, others, words, bytes))
}

// The couples at the start of `out`, as far as they fit whole, six words each.
pub fn crossings(
    text: &[u8],
    first: usize,
    second: usize,
    out: &mut [u64],
) -> Result<usize, Refusal>
    ensures { Crossed text.now first second out.old result out.new }
{
    let mut none = [0u8; 0];
    cross_threads(text, first, second, out, &mut none)
}

// The same as bytes, eight for each word, lowest first, with the answer as a number.
pub fn crossings_number(text: &[u8], first: usize, second: usize, out: &mut [u8]) -> u64
    ensures { CrossedBytes text.now first second out.old result out.new }
{
    let mut none = [0u64; 0];
    answers::counted_number(cross_threads(text, first, second, &mut none, out))
}
