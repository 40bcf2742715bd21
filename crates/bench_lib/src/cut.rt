// Where the first line is in the bytes that were read.
ghost use Rattle.bench_lib.specs.Served.{Ends};

// How many bytes the first line has, with its LF; None where no whole line is there. Bytes without an LF are a line too if no
// more bytes come.
pub fn line_end(bytes: &[u8], last: bool) -> Option<usize>
    ensures { Ends bytes.now last result }
{
    match bytes.iter().position(|b| *b == b'\n') {
        Some(before) => Some(before + 1),
        None if last && !bytes.is_empty() => Some(bytes.len()),
        None => None,
    }
}
