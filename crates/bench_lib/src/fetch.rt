// Reading behind the bytes that are there.
ghost use Rattle.std.specs.Prelude.{◌≤◌, length, IfOk, OnErr};
ghost use Rattle.std.specs.Io.KnownBytes.{Keeps};
ghost use Rattle.bench_lib.specs.Streams.{Gives};

use std::io;
use std::io::Read;

// Reads bytes behind the first kept ones, and answers where they end.
pub fn fetch<R: Read>(from: &mut R, input: &mut [u8], kept: usize) -> io::Result<usize>
    requires { kept ≤ length input.old }
    ensures ok { IfOk result
        (λ end. Gives (R.remaining from.old) (R.remaining from.new) input.old kept end input.new) }
    ensures err { OnErr result (Keeps (R.remaining from.old) (R.remaining from.new)) }
{
    let got = from.read(&mut input[kept..])?;
    Ok(kept + got)
}
