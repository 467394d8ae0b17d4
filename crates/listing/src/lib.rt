// The pair list of a procedure: the rules, then its critical pairs, three words each, into the caller's buffer, or by way of a list of MAX_PAIR_WORDS as bytes.
#![tactic(auto)]

ghost use Rattle.std.specs.Prelude.{◌≤◌, min, length};
ghost use Rattle.limits.specs.Limits.{max_pair_words};
ghost use Rattle.plan.specs.Settled.{RulesKept};
ghost use Rattle.procs.specs.Laid.{Laid};
ghost use Rattle.listing.specs.Listed.{TablePairs, PairsFound, Listed, ListedBytes};

use limits::{MAX_FORMS, MAX_PAIR_WORDS};
use procs::Layout;
use text::Refusal;

// The pairs of a procedure of a table (rule 11 where it is not there).
fn table_pairs(
    table: &[u64],
    layout: Layout,
    proc: usize,
    list: &mut [u64],
) -> Result<usize, Refusal>
    requires { RulesKept table.now × Laid table.now layout × (max_pair_words ≤ length list.old) }
    ensures { TablePairs table.now proc list.old result list.new }
{
    if layout.procs <= proc {
        return Err(Refusal { rule: 11, line: 0 });
    }
    Ok(pairs::collect_words(table, layout, proc, list))
}

// The pairs of a procedure of a text, where `lent` words are lent for them; the list has as many, or MAX_PAIR_WORDS.
fn pairs_of(text: &[u8], proc: usize, lent: usize, list: &mut [u64]) -> Result<usize, Refusal>
    requires { min lent max_pair_words ≤ length list.old }
    ensures { PairsFound text.now proc lent list.old result list.new }
{
    if lent < MAX_PAIR_WORDS {
        return Err(Refusal { rule: 1, line: 0 });
    }
    let mut table = [0u64; MAX_FORMS];
    let plan = checked::read_text(text, &mut table)?;
    table_pairs(&table[..plan.forms], plan.layout, proc, list)
}

// The pairs at the start of `out`, three words each. The count is of pairs.
pub fn list_pairs(text: &[u8], proc: usize, out: &mut [u64]) -> Result<usize, Refusal>
    ensures { Listed text.now proc out.old result out.new }
{
    let lent = out.len();
    pairs_of(text, proc, lent, out)
}

// The same as bytes, eight for each word, lowest first, with the answer as a number, by way of a list of MAX_PAIR_WORDS.
pub fn list_bytes(text: &[u8], proc: usize, out: &mut [u8], list: &mut [u64]) -> u64
    requires { max_pair_words ≤ length list.old }
    ensures { ListedBytes text.now proc out.old result out.new }
{
    let found = pairs_of(text, proc, out.len() / 8, list);
    let number = answers::counted_number(found);
    if let Ok(n) = found {
        buffers::put_pairs(&list[..3 * n], out);
    }
    number
}
