// The report on a plan text, part by part. The text is read and judged once, into lent tables, and each part is written from them into a lent buffer.
#![tactic(auto)]

ghost use Rattle.std.specs.Prelude.{◌+◌, ◌-◌, ◌≤◌, ◌<◌, [], length, take, get_or, ◌≡◌};
ghost use Rattle.limits.specs.Limits.{max_forms, max_pairs, max_entries};
ghost use Rattle.semantics.specs.Pairs.{pair_list};
ghost use Rattle.plan.specs.Settled.{table_plan, RulesKept};
ghost use Rattle.procs.specs.Laid.{Laid};
ghost use Rattle.laws.specs.Wrote.{Wrote};
ghost use Rattle.report_lines.specs.Lines.{proc_lines};
ghost use Rattle.answers.specs.Judgement.{schedule_length, schedule_in};
ghost use Rattle.report_text.specs.Report.{verdict_part, last_parts, part_of};
ghost use Rattle.report_text.specs.Tables.{part_room, verdict_in, ProcTables, Prepared};

use answers::Verdict;
use limits::{MAX_PAIRS, MAX_PROCS};
use procs::Layout;
use report_lines::PAIR_FORM_ROOM;
use text::Refusal;

// Bytes that suffice for a part of the report, most for the lines of a procedure: the opening and closing lines, and a line for each pair with room for each lock both ways.
const PROC_OPEN_ROOM: usize = 6 + 20 + 1;

const PAIR_LINE_ROOM: usize = PAIR_FORM_ROOM + 1;

pub const PART_ROOM: usize = PROC_OPEN_ROOM + MAX_PAIRS * PAIR_LINE_ROOM + 2;

// No report has more parts: the opening, the procedures, the verdict, the closing line.
pub const MOST_PARTS: usize = MAX_PROCS + 3;

// What was found of an accepted text: how many forms of it the table has, the layout of the table, and the verdict.
#[derive(Clone, Copy)]
pub struct Findings {
    pub forms: usize,
    pub layout: Layout,
    pub verdict: Verdict,
}

// A text read and judged: its forms are left in the table, the schedule of a deadlock in the entries; or the refusal.
pub fn judge_text(text: &[u8], table: &mut [u64], entries: &mut [u16]) -> Result<Findings, Refusal>
    requires { (max_forms ≤ length table.old) × (max_entries ≡ length entries.old) }
    ensures { Prepared text.now result table.new entries.new }
{
    let plan = checked::read_text(text, table)?;
    let verdict = deadlock::judge_table(&table[..plan.forms], plan.layout, entries);
    Ok(Findings {
        forms: plan.forms,
        layout: plan.layout,
        verdict,
    })
}

// The lines of procedure p of a table, by way of two columns of pairs.
fn put_pair_lines(
    table: &[u64],
    layout: Layout,
    p: usize,
    masks: &mut [u64],
    codes: &mut [u32],
    out: &mut [u8],
) -> usize
    requires { RulesKept table.now × Laid table.now layout × (p < layout.procs) × (max_pairs ≤ length masks.old) × (max_pairs ≤ length codes.old) × (part_room ≤ length out.old) }
    ensures { Wrote out.old out.new 0 result (proc_lines p (pair_list (table_plan table.now).procs p)) }
{
    let n = pairs::collect_columns(table, layout, p, masks, codes);
    report_lines::put_proc_lines(out, 0, p, &masks[0..n], &codes[0..n])
}

// The part of procedure p.
fn put_procedure(found: Findings, table: &[u64], p: usize, out: &mut [u8]) -> usize
    requires { ProcTables found table.now × (p < found.layout.procs) × (part_room ≤ length out.old) }
    ensures { Wrote out.old out.new 0 result (proc_lines p (pair_list (table_plan (take found.forms table.now)).procs p)) }
{
    let mut masks = [0u64; MAX_PAIRS];
    let mut codes = [0u32; MAX_PAIRS];
    put_pair_lines(
        &table[0..found.forms],
        found.layout,
        p,
        &mut masks,
        &mut codes,
        out,
    )
}

// The part of the verdict, or of the refusal.
#[tactic(auto, unfolding(answers::specs::Judgement::schedule_length, answers::specs::Judgement::schedule_in, crate::specs::Report::verdict_part, report_lines::specs::Lines::free_line))]
fn put_verdict(verdict: Result<Verdict, Refusal>, entries: &[u16], out: &mut [u8]) -> usize
    requires { (schedule_length verdict ≤ length entries.now) × (max_entries ≡ length entries.now) × (part_room ≤ length out.old) }
    ensures { Wrote out.old out.new 0 result (verdict_part verdict (schedule_in verdict entries.now)) }
{
    match verdict {
        Ok(Verdict::Free) => report_lines::put_text(out, 0, b"(free)\n"),
        Ok(Verdict::Deadlock { entries: n, stuck }) => {
            report_lines::put_deadlock(out, 0, stuck, &entries[..n])
        }
        Err(refusal) => report_lines::put_refused(out, 0, refusal.rule, refusal.line),
    }
}

// Part k behind the procedures, from 1 on: the verdict or the refusal, then the closing line.
fn put_last(verdict: Result<Verdict, Refusal>, entries: &[u16], k: usize, out: &mut [u8]) -> usize
    requires { (schedule_length verdict ≤ length entries.now) × (max_entries ≡ length entries.now) × (part_room ≤ length out.old) × (0 < k) }
    ensures { Wrote out.old out.new 0 result (get_or (last_parts verdict (schedule_in verdict entries.now)) (k - 1) []) }
{
    match k {
        1 => put_verdict(verdict, entries, out),
        2 => report_lines::put_text(out, 0, b")\n"),
        _ => 0,
    }
}

// Part k of the report on a text that was judged: how many bytes of it stand at the start of `out`, 0 past the last part.
pub fn put_part(
    text: &[u8],
    findings: Result<Findings, Refusal>,
    table: &[u64],
    entries: &[u16],
    k: usize,
    out: &mut [u8],
) -> usize
    requires { Prepared text.now findings table.now entries.now × (max_entries ≡ length entries.now) × (part_room ≤ length out.old) }
    ensures { Wrote out.old out.new 0 result (part_of text.now (verdict_in findings) (schedule_in (verdict_in findings) entries.now) k) }
{
    if k == 0 {
        return report_lines::put_text(out, 0, b"(report\n");
    }
    match findings {
        Ok(found) => {
            if k <= found.layout.procs {
                put_procedure(found, table, k - 1, out)
            } else {
                put_last(Ok(found.verdict), entries, k - found.layout.procs, out)
            }
        }
        Err(refusal) => put_last(Err(refusal), entries, k, out),
    }
}
