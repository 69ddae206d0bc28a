// The planes of a set, taken from the table by fd and given back to it.
ghost use Rattle.std.specs.Prelude.{◌≡◌};
ghost use Rattle.std.specs.List.{flat_map};
ghost use Rattle.loop_ioctl.specs.Names.{reason_of, TakesPlace, TakesSet, GivesBack, value_with_fd, values_in};

use crate::call::PlaneFds;
use loop_plane::{FdFault, FdTable};
use loop_vb2::{PlaneSet, Planes, Reason};
use std::alloc::Allocator;

// Why an fd can't be attached.
fn reason_of(fault: FdFault) -> Reason
    ensures { result ≡ reason_of fault }
{
    match fault {
        FdFault::Attached => Reason::FdAttached,
        _ => Reason::NoSuchFd,
    }
}

// Takes the plane of one place, where one is due.
fn take_place<P: Drop, A: Allocator>(
    table: &mut FdTable<P, A>,
    due: bool,
    fd: u32,
) -> Result<Option<P>, Reason>
    ensures { TakesPlace due fd result table.old table.new }
{
    if !due {
        return Ok(None);
    }
    match table.attach(fd) {
        Ok(plane) => Ok(Some(plane)),
        Err(fault) => Err(reason_of(fault)),
    }
}

// Gives the plane of one place back, where there is one. Its fd is attached.
fn give_place<P: Drop, A: Allocator>(table: &mut FdTable<P, A>, fd: u32, place: Option<P>)
    ensures { GivesBack (value_with_fd fd place) table.old table.new }
{
    match place {
        Some(plane) => {
            // `detach` can't refuse it, since the fd is attached.
            let _ = table.detach(fd, plane);
        }
        None => {}
    }
}

/// Takes the planes of a set, one fd after the other. At the first fd that fails, those taken before go back.
pub(crate) fn take_set<P: Drop, A: Allocator>(
    table: &mut FdTable<P, A>,
    named: PlaneFds,
) -> Result<PlaneSet<P>, Reason>
    ensures { TakesSet named result table.old table.new }
{
    let fds = named.fds;
    let y = match take_place(table, 0 < named.count, fds[0]) {
        Ok(y) => y,
        Err(reason) => return Err(reason),
    };
    let cb = match take_place(table, 1 < named.count, fds[1]) {
        Ok(cb) => cb,
        Err(reason) => {
            give_place(table, fds[0], y);
            return Err(reason);
        }
    };
    match take_place(table, 2 < named.count, fds[2]) {
        Ok(cr) => Ok(PlaneSet {
            count: named.count,
            planes: Planes { y, cb, cr },
            fds,
        }),
        Err(reason) => {
            give_place(table, fds[1], cb);
            give_place(table, fds[0], y);
            Err(reason)
        }
    }
}

/// Gives the planes of a set back, the last first, each under its fd.
pub(crate) fn give_set<P: Drop, A: Allocator>(table: &mut FdTable<P, A>, set: PlaneSet<P>)
    ensures { GivesBack (values_in set) table.old table.new }
{
    let set_fds = set.fds;
    let Planes { y, cb, cr } = set.planes;
    give_place(table, set_fds[2], cr);
    give_place(table, set_fds[1], cb);
    give_place(table, set_fds[0], y);
}

/// Gives sets back, each plane under its fd.
pub(crate) fn give_all<P: Drop, A: Allocator>(
    table: &mut FdTable<P, A>,
    mut sets: Vec<PlaneSet<P>, A>,
)
    ensures { GivesBack (flat_map values_in sets.items) table.old table.new }
{
    'along: while !sets.is_empty() {
        let set = sets.remove(0);
        give_set(table, set);
    }
}
