// The bytes of a frame, copied out of a buffer's planes.
ghost use Rattle.std.specs.Prelude.{◌≡◌, ◌≤◌, ◌+◌, length, min, map, List, [], ◌∷◌};
ghost use Rattle.loop_vb2.specs.Planes.{number_at, read_set, frame_size};
ghost use Rattle.loop_desk.specs.Parts.{Appends, begin_of, begins_of, count_of, AppendsOwn, AppendsAllOwn, CopiesFrame};

use loop_plane::PlaneMemory;
use loop_vb2::{PlaneSet, Queue, Shape};
use std::alloc::Allocator;

// Copies the first bytes in use of a plane, at most `most`, to place `at` of a slice; returns where they end.
fn append_given<P: PlaneMemory>(
    set: &PlaneSet<P>,
    plane: u32,
    most: u32,
    out: &mut [u8],
    at: usize,
) -> usize
    requires { at + most ≤ length out.old }
    ensures appends { Appends (begin_of (read_set P.plane set.now) most plane) at out.old result out.new }
    ensures within { result ≤ at + most }
{
    let stop = at + most.min(set.used_of(plane)) as usize;
    set.copy_out(plane, 0, &mut out[at..stop]);
    stop
}

// The same of a buffer's plane that stays in the queue, of which `most` bytes were used. It copies nothing if there is
// no such plane.
fn append_own<P: PlaneMemory, A: Allocator + Copy>(
    queue: &Queue<P, A>,
    index: u32,
    plane: u32,
    most: u32,
    out: &mut [u8],
    at: usize,
) -> usize
    requires { at + most ≤ length out.old }
    ensures appends { AppendsOwn P.plane queue.now index plane most at out.old result out.new }
    ensures within { result ≤ at + most }
{
    let stop = at + most as usize;
    match queue.copy_plane(index, plane, 0, &mut out[at..stop]) {
        Ok(()) => stop,
        Err(_) => at,
    }
}

// Copies the first bytes of the planes of a set, one after the other.
fn copy_given<P: PlaneMemory>(set: &PlaneSet<P>, counts: [u32; 3], out: &mut [u8]) -> usize
    requires { count_of counts ≤ length out.old }
    ensures { Appends (begins_of (read_set P.plane set.now) counts) 0 out.old result out.new }
{
    let [y, cb, cr] = counts;
    let second = append_given(set, 0, y, out, 0);
    let third = append_given(set, 1, cb, out, second);
    append_given(set, 2, cr, out, third)
}

// The same of a buffer whose planes stay in the queue.
fn copy_own<P: PlaneMemory, A: Allocator + Copy>(
    queue: &Queue<P, A>,
    index: u32,
    counts: [u32; 3],
    out: &mut [u8],
) -> usize
    requires { count_of counts ≤ length out.old }
    ensures { AppendsAllOwn P.plane queue.now index counts out.old result out.new }
{
    let [y, cb, cr] = counts;
    let second = append_own(queue, index, 0, y, out, 0);
    let third = append_own(queue, index, 1, cb, out, second);
    append_own(queue, index, 2, cr, out, third)
}

// How many bytes of each plane belong to a frame: those that were used, and no more than its part.
fn counts_of(shape: &Shape, used: &[u32; 3]) -> [u32; 3]
    ensures { result ≡ min (number_at shape.now.sizes 0) (number_at used.now 0)
        ∷ min (number_at shape.now.sizes 1) (number_at used.now 1)
        ∷ min (number_at shape.now.sizes 2) (number_at used.now 2) ∷ [] }
{
    let [y, cb, cr] = shape.sizes;
    [y.min(used[0]), cb.min(used[1]), cr.min(used[2])]
}

/// Copies the frame of a dequeued buffer to the start of a slice, which has room for a frame: its planes, one after the
/// other. Returns how many bytes the frame has. `used` and `planes` are what DQBUF answered.
pub(crate) fn copy_frame<P: PlaneMemory, A: Allocator + Copy>(
    queue: &Queue<P, A>,
    index: u32,
    used: &[u32; 3],
    planes: &Option<PlaneSet<P>>,
    out: &mut [u8],
) -> usize
    requires { frame_size queue.now.body.shape ≤ length out.old }
    ensures { CopiesFrame P.plane queue.now index used.now planes.now out.old result out.new }
{
    let counts = counts_of(&queue.shape(), used);
    match planes {
        Some(set) => copy_given(set, counts, out),
        None => copy_own(queue, index, counts, out),
    }
}
