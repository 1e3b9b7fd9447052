// One line of a file.
ghost use Rattle.std.specs.Prelude.{◌≡◌, ◌≤◌, length};
ghost use Rattle.listing.specs.Line.{line_end, without_return, is_record, starts_erased};

const LINE_FEED: u8 = b'\n';

const RETURN: u8 = b'\r';

const NOTE: u8 = b'#';

// Where the line that begins at a place ends: at its line feed, or at the file's end.
pub(crate) fn line_end(file: &[u8], at: usize) -> usize
    requires { at ≤ length file.now }
    ensures value { result ≡ line_end file.now at }
    ensures lower_bound { (at ≤ result) × (result ≤ length file.now) }
{
    match file[at..].iter().position(|b| *b == LINE_FEED) {
        Some(n) => at + n,
        None => file.len(),
    }
}

// Where its characters end: before the carriage return that stands before the line feed, if there is one.
pub(crate) fn without_return(file: &[u8], at: usize, end: usize) -> usize
    requires { (at ≤ end) × (end ≤ length file.now) }
    ensures value { result ≡ without_return file.now at end }
    ensures lower_bound { (at ≤ result) × (result ≤ end) }
{
    if at < end && end < file.len() && file[end - 1] == RETURN {
        end - 1
    } else {
        end
    }
}

// Whether these characters are a record: there are some, and they are no note.
pub(crate) fn is_record(file: &[u8], at: usize, end: usize) -> bool
    requires { end ≤ length file.now }
    ensures { result ≡ is_record file.now at end }
{
    at < end && file[at] != NOTE
}

// Whether the first line is exactly `#erased`, so that the file is for a board after a full chip erase.
pub fn starts_erased(file: &[u8]) -> bool
    ensures { result ≡ starts_erased file.now }
{
    let end = without_return(file, 0, line_end(file, 0));
    file[..end] == b"#erased"[..]
}
