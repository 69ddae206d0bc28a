// Lines of words and numbers.

use std::io;
use std::io::Write;

/// Prints a line: its head, and each part, a text and a number right after it.
pub fn print_line<W: Write>(out: &mut W, head: &str, parts: &[(&str, u64)]) -> io::Result<()> {
    print_parts(out, head, parts)?;
    out.write_all(b"\n")
}

/// As `print_line`, for the first part of a line.
pub fn print_parts<W: Write>(out: &mut W, head: &str, parts: &[(&str, u64)]) -> io::Result<()> {
    out.write_all(head.as_bytes())?;
    for (text, number) in parts {
        write!(out, "{text}{number}")?;
    }
    Ok(())
}
