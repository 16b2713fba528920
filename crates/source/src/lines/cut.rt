// Walks over bytes that find their lines.
ghost use Rattle.std.specs.Prelude.{◌≡◌, ◌<◌, ◌∷◌, length};
ghost use Rattle.std.specs.List.{count_by, position};
ghost use Rattle.source.specs.Lining.{is_feed, lines};

const LINE_FEED: u8 = 10;

const CARRIAGE_RETURN: u8 = 13;

// The place of the first line feed.
fn first_feed(bytes: &[u8]) -> Option<usize>
    ensures { result ≡ position is_feed bytes.now }
{
    bytes.iter().position(|byte| *byte == LINE_FEED)
}

// The first line of some bytes, and the bytes behind it.
pub fn first_line(bytes: &[u8]) -> (&[u8], &[u8])
    requires { 0 < length bytes.now }
    ensures { lines bytes.now ≡ result.0.now ∷ lines result.1.now }
{
    let Some(end) = first_feed(bytes) else {
        return (bytes, &[]);
    };
    let line = &bytes[..end];
    let rest = &bytes[end + 1..];
    (line.strip_suffix(&[CARRIAGE_RETURN]).unwrap_or(line), rest)
}

// The number of line feeds. A loop and no `filter(..).count()`, which takes one byte after the other where the loop takes
// many at once.
fn count_feeds(bytes: &[u8]) -> usize
    ensures { result ≡ count_by is_feed bytes.now }
{
    let mut feeds = 0;
    for byte in bytes {
        if *byte == LINE_FEED {
            feeds += 1;
        }
    }
    feeds
}

// The number of lines: one for each line feed, and one for bytes behind the last.
pub fn count_lines(file: &[u8]) -> usize
    ensures { result ≡ length (lines file.now) }
{
    let feeds = count_feeds(file);
    if file.last().is_none_or(|byte| *byte == LINE_FEED) {
        return feeds;
    }
    feeds + 1
}
