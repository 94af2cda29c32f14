// Numbers of STDF in a part of a slice: document 01, "Record frame and kinds", CPU_TYPE and the byte order. Each
// function reads or writes at the start of the part that it is lent; the caller has judged that the number lies in
// it.
#![tactic(auto)]

ghost use Rattle.std.specs.Prelude.{◌≡◌, ◌≤◌, length};
ghost use Rattle.numbers.specs.Orders.{order_of};
ghost use Rattle.numbers.specs.Numbers.{ordered, number, signed, front, written, over};

// Which byte of an integer comes first.
#[derive(Clone, Copy, PartialEq, Eq)]
pub enum Order {
    HighFirst,
    LowFirst,
}

// The order of a CPU_TYPE.
pub fn order_of(cpu: u8) -> Option<Order>
    ensures { result ≡ order_of cpu }
{
    match cpu {
        1 => Some(Order::HighFirst),
        2 => Some(Order::LowFirst),
        _ => None,
    }
}

// Bytes as they stand, turned to low byte first; or back, which is the same.
fn ordered<const N: usize>(order: Order, mut bytes: [u8; N]) -> [u8; N]
    ensures { result ≡ ordered order bytes.entry }
{
    if order == Order::HighFirst {
        bytes.reverse();
    }
    bytes
}

// Bytes, low byte first, laid over the start of a part.
fn lay<const N: usize>(order: Order, out: &mut [u8], bytes: [u8; N])
    requires { N ≤ length out.old }
    ensures { out.new ≡ over (ordered order bytes.entry) out.old }
{
    out[..N].copy_from_slice(&ordered(order, bytes));
}

// The U*2 at the start of a part. The order is asked for by a match, here and below: bytes that are turned where they lie
// took a fiftieth more instructions in bench_lent.
pub fn u2(order: Order, s: &[u8]) -> u16
    requires { 2 ≤ length s.now }
    ensures { result ≡ number order (front 2 0 s.now) }
{
    let bytes = *s.first_chunk().unwrap();
    match order {
        Order::HighFirst => u16::from_be_bytes(bytes),
        Order::LowFirst => u16::from_le_bytes(bytes),
    }
}

// The U*4 at the start of a part.
pub fn u4(order: Order, s: &[u8]) -> u32
    requires { 4 ≤ length s.now }
    ensures { result ≡ number order (front 4 0 s.now) }
{
    let bytes = *s.first_chunk().unwrap();
    match order {
        Order::HighFirst => u32::from_be_bytes(bytes),
        Order::LowFirst => u32::from_le_bytes(bytes),
    }
}

// The I*2 at the start of a part.
pub fn i2(order: Order, s: &[u8]) -> i16
    requires { 2 ≤ length s.now }
    ensures { result ≡ signed (number order (front 2 0 s.now)) }
{
    u2(order, s).cast_signed()
}

// A U*1 at the start of a part; every byte behind it stays, here and below.
pub fn put_u1(order: Order, out: &mut [u8], n: u8)
    requires { 1 ≤ length out.old }
    ensures { out.new ≡ over (written order 1 n) out.old }
{
    lay(order, out, [n]);
}

// A U*2 at the start of a part.
pub fn put_u2(order: Order, out: &mut [u8], n: u16)
    requires { 2 ≤ length out.old }
    ensures { out.new ≡ over (written order 2 n) out.old }
{
    lay(order, out, n.to_le_bytes());
}

// A U*4 at the start of a part.
pub fn put_u4(order: Order, out: &mut [u8], n: u32)
    requires { 4 ≤ length out.old }
    ensures { out.new ≡ over (written order 4 n) out.old }
{
    lay(order, out, n.to_le_bytes());
}
