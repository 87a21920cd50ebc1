//! Places in inputs, for messages.

/// Returns the line and the column of an octet, from 1 on. The column counts characters of UTF-8.
pub fn line_and_column(octets: &[u8], at: usize) -> (usize, usize) {
    let mut line = 1usize;
    let mut column = 1usize;
    for octet in octets.iter().take(at) {
        if *octet == b'\n' {
            line = line.saturating_add(1);
            column = 1;
        } else if *octet / 64 != 2 {
            column = column.saturating_add(1);
        }
    }
    (line, column)
}
