// The calls of lockplan as C functions, in a static library: include/lockplan.h declares them. Each is the function of its name in the library, and promises what that promises.
#![tactic(auto)]

ghost use Rattle.copies.specs.Copies.{TidiedNumber, StraightenedNumber};
ghost use Rattle.crossing.specs.Crossed.{CrossedBytes};
ghost use Rattle.listing.specs.Listed.{ListedBytes};
ghost use Rattle.space.specs.Slip.{NeedsNumber};
ghost use Rattle.verdict.specs.Judged.{JudgedBytes};

// The verdict: entries as two bytes each, lowest first.
#[unsafe(no_mangle)]
pub extern "C" fn lockplan_verdict(text: &[u8], out: &mut [u8]) -> u64
    ensures { JudgedBytes text.now out.old result out.new }
{
    lockplan::lockplan_verdict(text, out)
}

// The space that a schedule needs.
#[unsafe(no_mangle)]
pub extern "C" fn lockplan_space(text: &[u8]) -> u64
    ensures { NeedsNumber text.now result }
{
    lockplan::lockplan_space(text)
}

// The pair list: each word as eight bytes, lowest first.
#[unsafe(no_mangle)]
pub extern "C" fn lockplan_pairs(text: &[u8], proc: u64, out: &mut [u8]) -> u64
    ensures { ListedBytes text.now proc out.old result out.new }
{
    lockplan::lockplan_pairs(text, proc, out)
}

// The crossings: each word as eight bytes, lowest first.
#[unsafe(no_mangle)]
pub extern "C" fn lockplan_crossings(text: &[u8], first: u64, second: u64, out: &mut [u8]) -> u64
    ensures { CrossedBytes text.now first second out.old result out.new }
{
    lockplan::lockplan_crossings(text, first, second, out)
}

// The tidy copy.
#[unsafe(no_mangle)]
pub extern "C" fn lockplan_tidy(text: &[u8], out: &mut [u8]) -> u64
    ensures { TidiedNumber text.now out.old result out.new }
{
    lockplan::lockplan_tidy(text, out)
}

// The straightened copy.
#[unsafe(no_mangle)]
pub extern "C" fn lockplan_straight(text: &[u8], out: &mut [u8]) -> u64
    ensures { StraightenedNumber text.now out.old result out.new }
{
    lockplan::lockplan_straight(text, out)
}
