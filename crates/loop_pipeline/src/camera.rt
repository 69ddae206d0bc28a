//! A camera: its device, its queue and its desk.

ghost use Rattle.std.specs.Prelude.{◌≡◌, [], false};
ghost use Rattle.loop_pipeline.specs.Fronts.{StandsPort};

use crate::{Seat, Visits};
use loop_capture::{Device, FrameSource};
use loop_desk::Desk;
use loop_disk::Disk;
use loop_plane::{FdTable, PlaneMemory};
use loop_vb2::Queue;
use std::marker::Model;

/// A camera that can be filmed by guides of a type: its device, its queue, what fds name, and its desk.
#[derive(Drop)]
pub struct Camera<S: FrameSource + Drop, D: Disk + Drop, P: PlaneMemory, G: Visits> {
    pub(crate) device: Device<S>,
    pub(crate) queue: Queue<P>,
    pub(crate) table: FdTable<P>,
    pub(crate) desk: Seat<D, G>,
}

impl<S: FrameSource + Drop, D: Disk + Drop, P: PlaneMemory, G: Visits> Model
    for Camera<S, D, P, G> {
    ghost use Rattle.std.specs.Prelude.{[]};
    ghost use Rattle.loop_pipeline.specs.Fronts.{StandsPort};
    ghost use Rattle.loop_pipeline.specs.Cameras.{SeenCamera};

    ghost Value = { SeenCamera S D P };

    ghost view = { λ c. record { device = c.device; queue = c.queue; desk = c.desk; joined = [] } };

    ghost invariant = { λ c. StandsPort P.plane c.queue c.table };
}

impl<S: FrameSource + Drop, D: Disk + Drop, P: PlaneMemory, G: Visits> Camera<S, D, P, G> {
    /// A camera with these parts, where the calls of its desk aren't noted.
    pub fn new(device: Device<S>, queue: Queue<P>, table: FdTable<P>, desk: Desk<D>) -> Self
        requires ready { StandsPort P.plane queue table }
        requires plain { G.NOTED ≡ false }
        ensures { result ≡ record { device = device; queue = queue; desk = desk; joined = [] } }
    {
        Camera::seated(device, queue, table, Seat::alone(desk))
    }

    /// A camera with these parts.
    pub fn seated(device: Device<S>, queue: Queue<P>, table: FdTable<P>, desk: Seat<D, G>) -> Self
        requires { StandsPort P.plane queue table }
        ensures { result ≡ record { device = device; queue = queue; desk = desk; joined = [] } }
    {
        Camera {
            device,
            queue,
            table,
            desk,
        }
    }

    /// Its parts.
    pub fn into_parts(self) -> (Device<S>, Queue<P>, FdTable<P>, Seat<D, G>)
        ensures parts { (result.0 ≡ self.device) × (result.1 ≡ self.queue) × (result.3 ≡ self.desk) }
        ensures ready { StandsPort P.plane result.1 result.2 }
    {
        let Camera {
            device,
            queue,
            table,
            desk,
        } = self;
        (device, queue, table, desk)
    }

    // How many frames a flush of its desk stores at most.
    pub(crate) fn group(&self) -> u32 {
        self.desk.desk().limits().group
    }
}
