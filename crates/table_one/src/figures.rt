// The figures of a split, printed.
use pattern::reading::byte_at;
use scanning::lines::line_next;

// Prints the comment of a text, which is its second line, or the only line of an answer without a split. What printing fails on is passed over.
pub(crate) fn print_figures(rt: &impl Print, page: &[u8]) {
    let second = line_next(page, 0);
    let third = line_next(page, second);
    let line = if byte_at(page, 0) == b'%' {
        page.get(second..third)
    } else {
        page.get(..second)
    };
    let _ = rt.write_all(line.unwrap_or_default());
}
