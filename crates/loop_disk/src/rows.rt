// Rows of bytes, one after the other.
ghost use Rattle.std.specs.Prelude.{◌≡◌, ◌+◌, ◌<◌, ◌≤◌, ◌^◌, IfOk, length};
ghost use Rattle.loop_disk.specs.Medium.{with_bytes_at};
ghost use Rattle.loop_disk.specs.Rows.{joined};

use std::alloc::{AllocError, Allocator};

/// How many bytes rows have together.
pub fn length_of(rows: &[&[u8]]) -> usize
    requires { length (joined rows.now) < 2 ^ 64 }
    ensures { result ≡ length (joined rows.now) }
{
    match rows.split_first() {
        None => 0,
        Some((first, others)) => first.len() + length_of(others),
    }
}

/// The bytes of rows, one after the other, in memory of their own.
pub fn join_rows<A: Allocator>(alloc: A, rows: &[&[u8]]) -> Result<Vec<u8, A>, AllocError>
    ensures { IfOk result (λ bytes. bytes.items ≡ joined rows.now) }
{
    let mut bytes = Vec::new(alloc);
    for row in rows {
        bytes.extend_from_slice(row)?;
    }
    Ok(bytes)
}

/// Puts the bytes of rows into an image, from `at` on.
pub(crate) fn put_rows<A: Allocator>(image: &mut Vec<u8, A>, at: u64, rows: &[&[u8]])
    requires { at + length (joined rows.now) ≤ length image.old.items }
    ensures { image.new.items ≡ with_bytes_at at (joined rows.now) image.old.items }
{
    if let Some((first, others)) = rows.split_first() {
        put(image, at, first);
        put_rows(image, at + first.len() as u64, others);
    }
}

/// Puts bytes in their place.
pub(crate) fn put<A: Allocator>(image: &mut Vec<u8, A>, at: u64, bytes: &[u8])
    requires { at + length bytes.now ≤ length image.old.items }
    ensures { image.new.items ≡ with_bytes_at at bytes.now image.old.items }
{
    let start = at as usize;
    let end = start + bytes.len();
    image[start..end].copy_from_slice(bytes);
}
