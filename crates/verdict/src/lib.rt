// The verdict on a plan text: the rules, the last of them about the lent buffer, then the analysis of its table.
#![tactic(auto)]

ghost use Rattle.std.specs.Prelude.{◌≡◌, ◌*◌, ◌/◌, ◌≤◌, min, length};
ghost use Rattle.limits.specs.Limits.{max_bytes, max_forms, max_entries};
ghost use Rattle.semantics.specs.Sizes.{thread_sizes};
ghost use Rattle.plan.specs.Settled.{RulesKept, table_plan};
ghost use Rattle.procs.specs.Laid.{Laid};
ghost use Rattle.verdict.specs.Judged.{LentJudged, Judged, JudgedBytes};

use answers::Verdict;
use limits::{MAX_ENTRIES, MAX_FORMS};
use procs::Layout;
use text::Refusal;

// A text of at most so many bytes has a short table, which takes less time to clear.
const SHORT_BYTES: usize = 2048;

const SHORT_FORMS: usize = SHORT_BYTES / 2;

// Rule 1, where a schedule needs `sum` entries; then the verdict on the plan of a table.
fn judge_lent(
    table: &[u64],
    layout: Layout,
    sum: usize,
    entries: &mut [u16],
) -> Result<Verdict, Refusal>
    requires { RulesKept table.now × Laid table.now layout × (sum ≡ thread_sizes (table_plan table.now)) }
    ensures { LentJudged table.now entries.old result entries.new }
{
    if entries.len() < sum {
        return Err(Refusal { rule: 1, line: 0 });
    }
    Ok(deadlock::judge_table(table, layout, entries))
}

// The verdict on a text, with the schedule at the start of the entries, by way of a table of so many forms.
fn judge_by<const FORMS: usize>(text: &[u8], entries: &mut [u16]) -> Result<Verdict, Refusal>
    requires { (min (length text.now) max_bytes ≤ 2 * FORMS) × (FORMS ≤ max_forms) }
    ensures { Judged text.now entries.old result entries.new }
{
    let mut table = [0u64; FORMS];
    let plan = checked::read_text(text, &mut table)?;
    judge_lent(&table[..plan.forms], plan.layout, plan.space.sum, entries)
}

// The same with no table named: the large one is only cleared where the text may need it.
pub fn judge_text(text: &[u8], entries: &mut [u16]) -> Result<Verdict, Refusal>
    ensures { Judged text.now entries.old result entries.new }
{
    if text.len() <= SHORT_BYTES {
        return judge_by::<SHORT_FORMS>(text, entries);
    }
    judge_by::<MAX_FORMS>(text, entries)
}

// The schedule as bytes at the start of `out`, two for each entry, lowest first, and the verdict as a number; by way of as many entries as `out` holds, or MAX_ENTRIES if it holds more.
fn judge_bytes(text: &[u8], out: &mut [u8], entries: &mut [u16]) -> u64
    requires { length entries.old ≡ min (length out.old / 2) max_entries }
    ensures { JudgedBytes text.now out.old result out.new }
{
    let verdict = judge_text(text, entries);
    buffers::put_entries(&entries[..answers::schedule_length(verdict)], out);
    answers::verdict_number(verdict)
}

// The same by way of MAX_ENTRIES entries: no schedule needs more, however many whole ones `out` holds.
pub fn verdict_bytes(text: &[u8], out: &mut [u8], entries: &mut [u16]) -> u64
    requires { length entries.old ≡ max_entries }
    ensures { JudgedBytes text.now out.old result out.new }
{
    let lent = (out.len() / 2).min(MAX_ENTRIES);
    judge_bytes(text, out, &mut entries[..lent])
}
