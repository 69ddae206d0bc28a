// Rows written to a file, one after the other.
ghost use Rattle.std.specs.Prelude.{◌≡◌, ◌++◌, ◌+◌, ◌≤◌, ◌<◌, ◌^◌, length};
ghost use Rattle.loop_disk.specs.Rows.{joined};

use std::io;
use std::os::unix::fs::FileExt;

// A page of a file. Where a write ends within one, the system first reads the rest of it from the disk.
const PAGE: usize = 4096;

// How many bytes of short rows are put together. A function that takes more than 24 KiB of the stack may be compiled
// wrongly (docs/working.md, "A fault of the compiler").
const TOGETHER: usize = 8 * 1024;

// Memory for these, and for what completes the last page.
type RowMemory = [u8; TOGETHER + PAGE];

/// Writes rows from a place on. Short ones are put together first. Of a long one, whole pages are written from where
/// they are; what lies before the first page and after the last goes with the rows before and after it. So each write
/// but the first begins at a page boundary, and each but the last ends at one.
pub(crate) fn write_rows<F: FileExt>(file: &F, at: u64, rows: &[&[u8]]) -> io::Result<()>
    requires { at + length (joined rows.now) < 2 ^ 64 }
{
    let mut memory = [0; TOGETHER + PAGE];
    let mut at = at;
    let mut held = 0;
    for row in rows {
        if row.len() <= TOGETHER - held {
            hold(&mut memory, held, row);
            held += row.len();
            continue;
        }
        let (front, pages, tail) = parts(at + held as u64, row);
        hold(&mut memory, held, front);
        held += front.len();
        file.write_all_at(&memory[..held], at)?;
        at += held as u64;
        file.write_all_at(pages, at)?;
        at += pages.len() as u64;
        hold(&mut memory, 0, tail);
        held = tail.len();
    }
    file.write_all_at(&memory[..held], at)
}

// A row that is to be written at this place: what comes before the next page, whole pages, and the rest.
fn parts(at: u64, row: &[u8]) -> (&[u8], &[u8], &[u8])
    ensures whole { row.now ≡ result.0.now ++ result.1.now ++ result.2.now }
    ensures front { length result.0.now ≤ 4096 }
    ensures tail { length result.2.now < 4096 }
{
    let before = PAGE - (at % PAGE as u64) as usize;
    let (front, rest) = row.split_at(before.min(row.len()));
    let (pages, tail) = rest.split_at(rest.len() - rest.len() % PAGE);
    (front, pages, tail)
}

// Puts bytes into the memory, after so many that it holds.
fn hold(memory: &mut RowMemory, held: usize, bytes: &[u8])
    requires { held + length bytes.now ≤ 12288 }
{
    memory[held..held + bytes.len()].copy_from_slice(bytes);
}
