//! The files and pipes that a configuration names, and what of it can't be so.

use crate::opening::has_stores;
use crate::source::known_frames;
use loop_station_camera::TakenPaths;
use loop_station_outside::Places;
use loop_station_words::{CameraConfig, Config, NoRing, Settings, Source, asked_set};
use std::alloc::{AllocError, AllocGlobal, Global};
use std::sync::Arc;

/// Why the program couldn't begin.
#[derive(Drop)]
pub enum NotBegun {
    /// Memory or a thread was refused.
    NoMemory,
    /// The clock can't be read.
    NoClock,
    /// This path of `answers` is one of a store, a source, the configuration or the pipe of orders.
    AnswersInUse(String),
    /// No 256 stores hold as many frames as come in the hours or minutes of this camera. So many tenths of a minute
    /// fit.
    TooManyMinutes(String, u64),
}

impl From<AllocError> for NotBegun {
    fn from(_: AllocError) -> Self {
        NotBegun::NoMemory
    }
}

/// What stays as it was at the start, also where the configuration is read anew.
#[derive(Drop)]
pub(crate) struct Fixed {
    /// The path of the configuration.
    pub path: String,
    pub orders: Option<String>,
    pub answers: Option<String>,
    pub settings: Settings,
}

impl Fixed {
    /// What a configuration says of it.
    pub fn of(alloc: Global, path: &str, config: &Config) -> Result<Fixed, AllocError> {
        Ok(Fixed {
            path: String::from_str(alloc, path)?,
            orders: copied(alloc, &config.orders)?,
            answers: copied(alloc, &config.answers)?,
            settings: Settings::of(alloc, config)?,
        })
    }

    /// What no clip may be written to: the configuration and all that it names.
    pub fn taken(
        &self,
        alloc: Global,
        cameras: &[CameraConfig],
    ) -> Result<Arc<TakenPaths>, NotBegun> {
        let mut files = self.own_paths(alloc, cameras)?;
        if let Some(answers) = &self.answers {
            add_path(alloc, &mut files, answers.as_str())?;
        }
        let mut stores = Vec::new(alloc);
        for camera in cameras {
            add_path(alloc, &mut stores, camera.store.as_str())?;
        }
        match Arc::new(alloc, TakenPaths { files, stores }) {
            Ok(taken) => Ok(taken),
            Err(_) => Err(NotBegun::NoMemory),
        }
    }

    // The configuration, and what it names to be read or recorded into.
    fn own_paths(&self, alloc: Global, cameras: &[CameraConfig]) -> Result<Vec<String>, NotBegun> {
        let mut taken = Vec::new(alloc);
        add_path(alloc, &mut taken, self.path.as_str())?;
        if let Some(orders) = &self.orders {
            add_path(alloc, &mut taken, orders.as_str())?;
        }
        for camera in cameras {
            add_store(alloc, &mut taken, camera.store.as_str())?;
            if let Source::Path(source) = &camera.source {
                add_path(alloc, &mut taken, source.as_str())?;
            }
        }
        Ok(taken)
    }

    /// Refuses cameras whose stores or sources are what `answers` lead to, and one whose stores would have to be made
    /// for more frames than 256 of them hold, where its frames are known already.
    pub fn check<R: AllocGlobal + Places>(
        &self,
        rt: &R,
        cameras: &[CameraConfig],
    ) -> Result<(), NotBegun> {
        self.check_answers(rt, cameras)?;
        for camera in cameras {
            check_minutes(rt, camera)?;
        }
        Ok(())
    }

    // Refuses `answers` that lead to what the station reads or records into.
    fn check_answers<R: AllocGlobal + Places>(
        &self,
        rt: &R,
        cameras: &[CameraConfig],
    ) -> Result<(), NotBegun> {
        let Some(answers) = &self.answers else {
            return Ok(());
        };
        let taken = self.own_paths(rt.alloc(), cameras)?;
        if taken
            .iter()
            .any(|other| rt.is_same(answers.as_str(), other.as_str()))
            || cameras.iter().any(|camera| rt.is_numbered(
                answers.as_str(),
                camera.store.as_str(),
            ))
        {
            let path = String::from_str(rt.alloc(), answers.as_str())?;
            return Err(NotBegun::AnswersInUse(path));
        }
        Ok(())
    }
}

// A copy of a path, if there is one.
fn copied(alloc: Global, path: &Option<String>) -> Result<Option<String>, AllocError> {
    match path {
        Some(path) => Ok(Some(String::from_str(alloc, path.as_str())?)),
        None => Ok(None),
    }
}

// Adds the path of a store to others, and those of the files beside it: while it is made, and of its open events.
fn add_store(alloc: Global, paths: &mut Vec<String>, store: &str) -> Result<(), NotBegun> {
    add_path(alloc, paths, store)?;
    let made = format!(in alloc; "{store}.new")?;
    add_path(alloc, paths, made.as_str())?;
    let events = format!(in alloc; "{store}.events")?;
    add_path(alloc, paths, events.as_str())?;
    let unfinished = format!(in alloc; "{store}.events.part")?;
    add_path(alloc, paths, unfinished.as_str())
}

// Refuses a camera whose stores would have to be made for more frames than 256 of them hold, where its frames are known
// already.
fn check_minutes<R: AllocGlobal + Places>(rt: &R, camera: &CameraConfig) -> Result<(), NotBegun> {
    if has_stores(rt, camera.store.as_str()) {
        return Ok(());
    }
    let Some(frames) = known_frames(rt, &camera.source) else {
        return Ok(());
    };
    match asked_set(&frames, camera.room) {
        Err(NoRing::TooManyFrames(tenths)) => {
            let name = String::from_str(rt.alloc(), camera.name.as_str())?;
            Err(NotBegun::TooManyMinutes(name, tenths))
        }
        _ => Ok(()),
    }
}

// Adds a path to others.
fn add_path(alloc: Global, paths: &mut Vec<String>, path: &str) -> Result<(), NotBegun> {
    let path = String::from_str(alloc, path)?;
    match paths.push(path) {
        Ok(()) => Ok(()),
        Err(_) => Err(NotBegun::NoMemory),
    }
}
