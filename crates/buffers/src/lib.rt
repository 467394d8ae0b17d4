// Numbers into a lent buffer: as they are, or as bytes, lowest first. The rest of the buffer is kept.
#![tactic(auto)]

ghost use Rattle.std.specs.Prelude.{◌≡◌, ℕ, ◌*◌, ◌≤◌, length, map};
ghost use Rattle.laws.specs.Wrote.{Wrote};
ghost use Rattle.buffers.specs.LittleEndian.{number_bytes, list_bytes};

// A number that is written as W bytes.
trait Number<const W: usize>: Copy {
    ghost value: { Self → ℕ };

    fn bytes(self) -> [u8; W]
        ensures { result ≡ number_bytes W (value self) };
}

#[tactic(auto, unfolding(crate::specs::LittleEndian::number_bytes))]
impl Number<8> for u64 {
    ghost value = { λ x. x };

    fn bytes(self) -> [u8; 8] {
        u64::to_le_bytes(self)
    }
}

#[tactic(auto, unfolding(crate::specs::LittleEndian::number_bytes))]
impl Number<2> for u16 {
    ghost value = { λ x. x };

    fn bytes(self) -> [u8; 2] {
        u16::to_le_bytes(self)
    }
}

// Numbers as W bytes each.
fn put_numbers<const W: usize, T: Number<W>>(numbers: &[T], out: &mut [u8])
    requires { length numbers.now * W ≤ length out.old }
    ensures { Wrote out.old out.new 0 (length numbers.now * W) (list_bytes W (map T.value numbers.now)) }
{
    for (i, number) in numbers.iter().enumerate() {
        out[i * W..(i + 1) * W].copy_from_slice(&number.bytes());
    }
}

// Pairs, 64-bit words, as bytes.
pub fn put_pairs(pairs: &[u64], out: &mut [u8])
    requires { length pairs.now * 8 ≤ length out.old }
    ensures { Wrote out.old out.new 0 (length pairs.now * 8) (list_bytes 8 pairs.now) }
{
    put_numbers(pairs, out);
}

// 16-bit entries as bytes.
pub fn put_entries(entries: &[u16], out: &mut [u8])
    requires { length entries.now * 2 ≤ length out.old }
    ensures { Wrote out.old out.new 0 (length entries.now * 2) (list_bytes 2 entries.now) }
{
    put_numbers(entries, out);
}

// 16-bit entries as they are.
pub fn copy_entries(entries: &[u16], out: &mut [u16])
    requires { length entries.now ≤ length out.old }
    ensures { Wrote out.old out.new 0 (length entries.now) entries.now }
{
    out[..entries.len()].copy_from_slice(entries);
}
