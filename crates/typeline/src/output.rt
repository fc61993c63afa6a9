// Output through a buffer, of which the first `filled` bytes wait to be written.
ghost use Rattle.std.specs.Prelude.{◌≤◌, IfOk};

use std::io;
use std::io::Write;

// So much of the buffer may wait while a line is answered: the rest has room for all that one line prints.
const WAITING: usize = 49152;

pub(crate) fn flush(output: &mut impl Write, out: &[u8], filled: usize) -> io::Result<()> {
    if filled <= out.len() {
        output.write_all(&out[..filled])?;
    }
    Ok(())
}

// Writes what waits where it is much, and tells how much waits then.
pub(crate) fn room(output: &mut impl Write, out: &[u8], filled: usize) -> io::Result<usize>
    ensures { IfOk result (λ n. n ≤ 49152) }
{
    if WAITING < filled {
        flush(output, out, filled)?;
        return Ok(0);
    }
    Ok(filled)
}
