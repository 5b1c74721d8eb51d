//! Copies of short texts.

ghost use Rattle.std.specs.Prelude.{◌≡◌, ◌+◌, ◌≤◌, ◌++◌, drop, length, take};

/// Copies a text by its first and its last bytes, which may overlap. If their number is a constant, each copy is one or
/// two instructions.
#[inline(always)]
fn copy_ends(to: &mut [u8], from: &[u8], part: usize)
    requires same { length to.old ≡ length from.now }
    requires within { part ≤ length from.now }
    requires whole { length from.now ≤ part + part }
    ensures { to.new ≡ from.now }
{
    let rest = from.len() - part;
    to[..part].copy_from_slice(&from[..part]);
    to[rest..].copy_from_slice(&from[rest..]);
}

/// Copies a text of three bytes at most byte by byte, some of them twice.
#[inline(always)]
fn copy_three(to: &mut [u8], from: &[u8])
    requires same { length to.old ≡ length from.now }
    requires some { 1 ≤ length from.now }
    requires few { length from.now ≤ 3 }
    ensures { to.new ≡ from.now }
{
    let middle = from.len() / 2;
    let last = from.len() - 1;
    to[0] = from[0];
    to[middle] = from[middle];
    to[last] = from[last];
}

/// Copies four bytes from an index on. All are read before one is written, so no overlap check is needed, which
/// `copy_from_slice` would make: one instruction reads them and one writes them.
#[inline(always)]
fn copy_four(to: &mut [u8], from: &[u8], index: usize)
    requires same { length to.old ≡ length from.now }
    requires within { index + 4 ≤ length from.now }
    ensures { to.new ≡ take index to.old ++ take 4 (drop index from.now) ++ drop (index + 4) to.old }
{
    let first = from[index];
    let second = from[index + 1];
    let third = from[index + 2];
    let fourth = from[index + 3];
    to[index] = first;
    to[index + 1] = second;
    to[index + 2] = third;
    to[index + 3] = fourth;
}

/// Copies a text of four to eight bytes.
#[inline(always)]
fn copy_eight(to: &mut [u8], from: &[u8])
    requires same { length to.old ≡ length from.now }
    requires some { 4 ≤ length from.now }
    requires few { length from.now ≤ 8 }
    ensures { to.new ≡ from.now }
{
    let last = from.len() - 4;
    copy_four(to, from, 0);
    copy_four(to, from, last);
}

/// Copies a text. Most names are short, and are copied without a call.
#[inline(always)]
pub(crate) fn copy_text(to: &mut [u8], from: &[u8])
    requires { length to.old ≡ length from.now }
    ensures { to.new ≡ from.now }
{
    match from.len() {
        0 => (),
        1..=3 => copy_three(to, from),
        4..=8 => copy_eight(to, from),
        9..=16 => copy_ends(to, from, 8),
        17..=32 => copy_ends(to, from, 16),
        _ => to.copy_from_slice(from),
    }
}

/// Copies a row of bytes. Its length is a constant, so this is a few moves without an overlap check.
#[inline(always)]
pub(crate) fn copy_row<const N: usize>(to: &mut [u8], from: &[u8; N])
    requires { length to.old ≡ N }
    ensures { to.new ≡ from.now }
{
    let Some(index) = to.as_mut_array::<N>() else {
        unreachable!()
    };
    *index = *from;
}
