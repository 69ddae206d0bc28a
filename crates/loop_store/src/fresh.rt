//! What formatting writes, in order: the superblock's gate is closed first and opened last. docs/order-of-writes.md
//! says why it is so.

ghost use Rattle.std.specs.Prelude.{◌≡◌, ◌+◌, ◌<◌, ◌≤◌, IsTrue, ◌++◌, drop, length};
ghost use Rattle.loop_disk.specs.Medium.{IsSettled};
ghost use Rattle.loop_record.specs.Geometry.{is_good};
ghost use Rattle.loop_record.specs.Layout.{IsVersion, super_bytes};
ghost use Rattle.loop_store.specs.Fresh.{FitsDisk, HoldsFresh, IsClosed, IsLaid, IsLaidClosed, LeavesClosed, WasOrClosed};
ghost use Rattle.loop_store.specs.Make.{NoneOrEmpty, WasOr};
ghost use Rattle.loop_store.specs.Grow.{Brings};

use loop_disk::{Disk, DiskFault, store};
use loop_record::{HEADER_SIZE, OPEN, SUPER_SIZE, SuperHead, encode_super};

// The bytes of the superblock and the clip table.
const FRONT_SIZE: usize = 2560;

// Closes the superblock's gate if it is open, on a disk of which a crash leaves exactly the present bytes.
fn close_gate<D: Disk>(disk: &mut D) -> Result<(), DiskFault>
    requires extent { 1 ≤ (D.medium disk.old).size }
    requires settled { (D.medium disk.old).honest → IsSettled (D.medium disk.old) }
    ensures { let old = D.medium disk.old in Brings (WasOrClosed old) LeavesClosed old (D.medium disk.new) result }
{
    let mut gate = [0];
    disk.read(0, &mut gate)?;
    if gate[0] == OPEN {
        store(disk, 0, &[0])
    } else {
        Ok(())
    }
}

// Settles the disk and closes the superblock's gate.
fn unformat<D: Disk>(disk: &mut D) -> Result<(), DiskFault>
    requires extent { 1 ≤ (D.medium disk.old).size }
    ensures { let old = D.medium disk.old in Brings (WasOrClosed old) LeavesClosed old (D.medium disk.new) result }
{
    disk.sync()?;
    close_gate(disk)
}

// Puts an open superblock at the start of some bytes.
fn put_super(front: &mut [u8], head: &SuperHead)
    requires good { IsTrue (is_good head.now.geometry) }
    requires size { 512 ≤ length front.old }
    ensures { front.new ≡ super_bytes head.now ++ drop 512 front.old }
{
    encode_super(head, &mut front[0..SUPER_SIZE]);
}

// The bytes after the first one, which is the gate.
fn behind_gate(bytes: &[u8]) -> &[u8]
    requires { 1 ≤ length bytes.now }
    ensures { result.now ≡ drop 1 bytes.now }
{
    &bytes[1..]
}

// Writes the superblock without its gate, and an empty clip table.
fn write_front<D: Disk>(disk: &mut D, head: &SuperHead) -> Result<(), DiskFault>
    requires fits { FitsDisk head.now.geometry (D.medium disk.old).size }
    requires closed { (D.medium disk.old).honest → LeavesClosed (D.medium disk.old) }
    ensures { Brings IsClosed (IsLaidClosed head.now 0) (D.medium disk.old) (D.medium disk.new) result }
{
    let mut front = [0; FRONT_SIZE];
    put_super(&mut front, head);
    disk.write_at(1, behind_gate(&front))
}

// Overwrites the header of a segment with zeros.
fn write_header<D: Disk>(disk: &mut D, head: &SuperHead, segment: u32) -> Result<(), DiskFault>
    requires fits { FitsDisk head.now.geometry (D.medium disk.old).size }
    requires segment { segment < head.now.geometry.segments }
    requires laid { (D.medium disk.old).honest → IsLaidClosed head.now segment (D.medium disk.old) }
    ensures { Brings IsClosed (IsLaidClosed head.now (segment + 1)) (D.medium disk.old) (D.medium disk.new) result }
{
    disk.write_at(head.geometry.segment_at(segment), &[0; HEADER_SIZE])
}

// Overwrites the headers of all segments with zeros.
fn write_headers<D: Disk>(disk: &mut D, head: &SuperHead) -> Result<(), DiskFault>
    requires fits { FitsDisk head.now.geometry (D.medium disk.old).size }
    requires laid { (D.medium disk.old).honest → IsLaidClosed head.now 0 (D.medium disk.old) }
    ensures { let h = head.now in
        Brings IsClosed (IsLaidClosed h h.geometry.segments) (D.medium disk.old) (D.medium disk.new) result }
{
    for segment in 0..head.geometry.segments {
        write_header(disk, head, segment)?;
    }
    Ok(())
}

// Opens the superblock's gate, on a disk of which a crash leaves exactly the present bytes.
fn open_gate<D: Disk>(disk: &mut D, head: &SuperHead) -> Result<(), DiskFault>
    requires fits { FitsDisk head.now.geometry (D.medium disk.old).size }
    requires version { IsVersion head.now.version }
    requires settled { (D.medium disk.old).honest → IsSettled (D.medium disk.old) }
    requires laid { (D.medium disk.old).honest → IsLaid head.now head.now.geometry.segments (D.medium disk.old).bytes }
    ensures { let h = head.now in
        Brings (NoneOrEmpty h) (HoldsFresh h) (D.medium disk.old) (D.medium disk.new) result }
{
    store(disk, 0, &[OPEN])
}

// Syncs what was written after the gate, and opens the gate.
fn finish<D: Disk>(disk: &mut D, head: &SuperHead) -> Result<(), DiskFault>
    requires fits { FitsDisk head.now.geometry (D.medium disk.old).size }
    requires version { IsVersion head.now.version }
    requires laid { (D.medium disk.old).honest → IsLaidClosed head.now head.now.geometry.segments (D.medium disk.old) }
    ensures { let h = head.now in
        Brings (NoneOrEmpty h) (HoldsFresh h) (D.medium disk.old) (D.medium disk.new) result }
{
    disk.sync()?;
    open_gate(disk, head)
}

/// Writes an empty recording over the contents of a disk that has the geometry's size.
pub(crate) fn lay_out<D: Disk>(disk: &mut D, head: &SuperHead) -> Result<(), DiskFault>
    requires fits { FitsDisk head.now.geometry (D.medium disk.old).size }
    requires version { IsVersion head.now.version }
    ensures { let h = head.now in let old = D.medium disk.old in
        Brings (WasOr old (NoneOrEmpty h)) (HoldsFresh h) old (D.medium disk.new) result }
{
    unformat(disk)?;
    write_front(disk, head)?;
    write_headers(disk, head)?;
    finish(disk, head)
}
