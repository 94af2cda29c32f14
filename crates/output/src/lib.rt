// Bytes placed in a lent output: document 01, "Count lines", a stated offset, and "Refusal numbers", 17. Each writer
// puts its bytes at the start of the part that it is lent and returns how many; the next one gets the part behind
// them.
#![tactic(auto)]

ghost use Rattle.std.specs.Prelude.{◌+◌, ◌≤◌, length};
ghost use Rattle.output.specs.Placed.{Put, Room, part};

// A few bytes.
#[tactic(auto, using(crate::proofs::Laws::laid_more))]
pub fn put<const N: usize>(out: &mut [u8], bytes: [u8; N]) -> usize
    requires { Room bytes out.old }
    ensures { Put bytes.entry out.old result out.new }
{
    // A loop: copy_from_slice took five times as long for the two bytes of a pair of digits.
    for i in 0..N {
        out[i] = bytes[i];
    }
    N
}

// Bytes, as they are.
pub fn put_bytes(out: &mut [u8], bytes: &[u8]) -> usize
    requires { Room bytes.now out.old }
    ensures { Put bytes.now out.old result out.new }
{
    let n = bytes.len();
    out[..n].copy_from_slice(bytes);
    n
}

// `len` bytes of a source, from its place `at` on.
pub fn put_part(out: &mut [u8], source: &[u8], at: usize, len: usize) -> usize
    requires { (at + len ≤ length source.now) × (len ≤ length out.old) }
    ensures { Put (part at len source.now) out.old result out.new }
{
    put_bytes(out, &source[at..at + len])
}
