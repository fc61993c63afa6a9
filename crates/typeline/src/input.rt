// Lines out of what was read: where a line ends, and a line put together from its pieces.
ghost use Rattle.std.specs.Prelude.{◌≤◌, length};

// The place of the first LF from i on, or where the chunk ends.
pub(crate) fn line_end(chunk: &[u8], i: usize) -> usize
    requires { i ≤ length chunk.now }
    ensures { (i ≤ result) × (result ≤ length chunk.now) }
{
    match chunk[i..].iter().position(|b| *b == b'\n') {
        Some(n) => i + n,
        None => chunk.len(),
    }
}

// Puts as much of `part` after the line so far as there is room for, and tells how long it is then.
pub(crate) fn append(line: &mut [u8], used: usize, part: &[u8]) -> usize
    requires { used ≤ length line.old }
    ensures { result ≤ length line.new }
{
    let n = part.len().min(line.len() - used);
    line[used..used + n].copy_from_slice(&part[..n]);
    used + n
}
