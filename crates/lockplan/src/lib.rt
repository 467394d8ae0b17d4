// The library's calls: the verdict on a plan, the space that its schedule needs, the pair list of a procedure, where two threads cross, a procedure's text, the tidy copy and
// the straightened copy of a plan text; and all but a procedure's text for C, as lockplan_c exports them.
#![tactic(auto)]

ghost use Rattle.copies.specs.Copies.{Tidied, TidiedNumber, Straightened, StraightenedNumber};
ghost use Rattle.crossing.specs.Crossed.{Crossed, CrossedBytes};
ghost use Rattle.listing.specs.Listed.{Listed, ListedBytes};
ghost use Rattle.parts.specs.Parts.{PartAt};
ghost use Rattle.procedure_text.specs.ProcText.{proc_text};
ghost use Rattle.space.specs.Slip.{Needs, NeedsNumber};
ghost use Rattle.verdict.specs.Judged.{Judged, JudgedBytes};

pub use answers::Verdict;
use limits::{MAX_ENTRIES, MAX_PAIR_WORDS};
pub use text::Refusal;

// The verdict on a plan text: whether its gateway can come to two or more threads stuck on each other, with a schedule at the start of `out` where it can.
pub fn judge(text: &[u8], out: &mut [u16]) -> Result<Verdict, Refusal>
    ensures { Judged text.now out.old result out.new }
{
    verdict::judge_text(text, out)
}

// How many entries a schedule of the plan needs: the sum of its threads' sizes.
pub fn space(text: &[u8]) -> Result<usize, Refusal>
    ensures { Needs text.now result }
{
    space::needed_entries(text)
}

// The critical pairs of a procedure, ascending, at the start of `out`: three 64-bit words each, and the count is of pairs.
pub fn pair_list(text: &[u8], proc: usize, out: &mut [u64]) -> Result<usize, Refusal>
    ensures { Listed text.now proc out.old result out.new }
{
    listing::list_pairs(text, proc, out)
}

// The couples of critical pairs, one of each of two threads, whose locks may stand together and that each want what may not stand beside what the other has: counted, and
// the first ones that fit at the start of `out`, six 64-bit words each.
pub fn crossings(
    text: &[u8],
    first: usize,
    second: usize,
    out: &mut [u64],
) -> Result<usize, Refusal>
    ensures { Crossed text.now first second out.old result out.new }
{
    crossing::crossings(text, first, second, out)
}

// The part of the text that a procedure is: empty where the plan is refused or the procedure is absent.
pub fn proc_text(text: &[u8], proc: usize) -> &[u8]
    ensures { PartAt text.entry (proc_text text.now proc) result }
{
    procedure_text::lines_of(text, proc)
}

// The tidy copy of a plan text, in 01's bare form, at the start of `out`.
pub fn tidy(text: &[u8], out: &mut [u8]) -> Result<usize, Refusal>
    ensures { Tidied text.now out.old result out.new }
{
    copies::write_copy(text, false, out)
}

// The straightened copy of a plan text, each either as its two blocks and each loop as its block, in tidy form, at the start of `out`.
pub fn straight(text: &[u8], out: &mut [u8]) -> Result<usize, Refusal>
    ensures { Straightened text.now out.old result out.new }
{
    copies::write_copy(text, true, out)
}

// The verdict for C: entries as two bytes each, lowest first.
#[unsafe(no_mangle)]
pub extern "C" fn lockplan_verdict(text: &[u8], out: &mut [u8]) -> u64
    ensures { JudgedBytes text.now out.old result out.new }
{
    let mut entries = [0u16; MAX_ENTRIES];
    verdict::verdict_bytes(text, out, &mut entries)
}

// The space that a schedule needs, for C.
#[unsafe(no_mangle)]
pub extern "C" fn lockplan_space(text: &[u8]) -> u64
    ensures { NeedsNumber text.now result }
{
    space::space_number(text)
}

// The pair list for C: each word as eight bytes, lowest first.
#[unsafe(no_mangle)]
pub extern "C" fn lockplan_pairs(text: &[u8], proc: u64, out: &mut [u8]) -> u64
    ensures { ListedBytes text.now proc out.old result out.new }
{
    let mut list = [0u64; MAX_PAIR_WORDS];
    listing::list_bytes(text, proc as usize, out, &mut list)
}

// The crossings for C: each word as eight bytes, lowest first.
#[unsafe(no_mangle)]
pub extern "C" fn lockplan_crossings(text: &[u8], first: u64, second: u64, out: &mut [u8]) -> u64
    ensures { CrossedBytes text.now first second out.old result out.new }
{
    crossing::crossings_number(text, first as usize, second as usize, out)
}

// The tidy copy for C.
#[unsafe(no_mangle)]
pub extern "C" fn lockplan_tidy(text: &[u8], out: &mut [u8]) -> u64
    ensures { TidiedNumber text.now out.old result out.new }
{
    copies::copy_number(text, false, out)
}

// The straightened copy for C.
#[unsafe(no_mangle)]
pub extern "C" fn lockplan_straight(text: &[u8], out: &mut [u8]) -> u64
    ensures { StraightenedNumber text.now out.old result out.new }
{
    copies::copy_number(text, true, out)
}
