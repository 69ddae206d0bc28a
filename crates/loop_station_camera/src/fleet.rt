//! The cameras that record now: some end and others begin where the configuration is read anew.

use crate::state::CameraState;
use std::alloc::{AllocError, Global};
use std::sync::{Arc, Mutex, Wait};

#[derive(Drop)]
struct Ships {
    // Those that record, in the order of the configuration.
    cameras: Vec<Arc<CameraState>>,
    // Those that are about to end: nothing is asked of them any more, but what they were asked for is still done.
    ending: Vec<Arc<CameraState>>,
    // The place of the next one that begins.
    next: usize,
}

/// The cameras of a station.
#[derive(Drop)]
pub struct Fleet {
    inside: Mutex<Ships>,
}

impl Fleet {
    /// These, whose places are from 0 on.
    pub fn new(alloc: Global, cameras: Vec<Arc<CameraState>>) -> Fleet {
        let next = cameras.len();
        Fleet {
            inside: Mutex::new(Ships {
                cameras,
                ending: Vec::new(alloc),
                next,
            }),
        }
    }

    /// Those that record now, in the order of the configuration.
    pub fn all<R: Wait>(&self, rt: &R, alloc: Global) -> Result<Vec<Arc<CameraState>>, AllocError> {
        let inside = self.inside.lock(rt);
        let mut cameras = Vec::new(alloc);
        for state in inside.cameras.as_slice() {
            if cameras.push(Arc::try_clone(state)?).is_err() {
                return Err(AllocError);
            }
        }
        Ok(cameras)
    }

    /// Those that record now, and those that are about to end.
    pub fn watched<R: Wait>(
        &self,
        rt: &R,
        alloc: Global,
    ) -> Result<Vec<Arc<CameraState>>, AllocError> {
        let mut cameras = self.all(rt, alloc)?;
        let inside = self.inside.lock(rt);
        for state in inside.ending.as_slice() {
            if cameras.push(Arc::try_clone(state)?).is_err() {
                return Err(AllocError);
            }
        }
        Ok(cameras)
    }

    /// The one with a place, also while it is about to end.
    pub fn at<R: Wait>(&self, rt: &R, place: usize) -> Option<Arc<CameraState>> {
        let inside = self.inside.lock(rt);
        for state in inside.cameras.as_slice() {
            if state.place == place {
                return Arc::try_clone(state).ok();
            }
        }
        for state in inside.ending.as_slice() {
            if state.place == place {
                return Arc::try_clone(state).ok();
            }
        }
        None
    }

    /// The one of a name that records now.
    pub fn named<R: Wait>(&self, rt: &R, name: &str) -> Option<Arc<CameraState>> {
        let inside = self.inside.lock(rt);
        for state in inside.cameras.as_slice() {
            if state.config.name.as_str() == name {
                return Arc::try_clone(state).ok();
            }
        }
        None
    }

    /// A place that no camera had before.
    pub fn place<R: Wait>(&self, rt: &R) -> usize {
        let mut inside = self.inside.lock(rt);
        let place = inside.next;
        inside.next = place.saturating_add(1);
        place
    }

    /// From now on these record, and those are about to end.
    pub fn set<R: Wait>(
        &self,
        rt: &R,
        cameras: Vec<Arc<CameraState>>,
        ending: Vec<Arc<CameraState>>,
    ) {
        let mut inside = self.inside.lock(rt);
        inside.cameras = cameras;
        inside.ending = ending;
    }

    /// Those that were about to end have ended.
    pub fn forget_ended<R: Wait>(&self, rt: &R) {
        self.inside.lock(rt).ending.clear();
    }
}
