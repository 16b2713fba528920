// Parts of bytes by their positions.
ghost use Rattle.std.specs.Prelude.{◌≡◌};
ghost use Rattle.recordbytes.specs.Spans.{span as span_of};

// The bytes at the positions `first` to `last`, counted from 1, as far as there are any.
pub fn span(bytes: &[u8], first: usize, last: usize) -> &[u8]
    ensures { result.now ≡ span_of bytes.now first last }
{
    let end = last.min(bytes.len());
    let start = first.saturating_sub(1).min(end);
    &bytes[start..end]
}
