// The configuration file, which says which cameras there are. docs/station.md says why it is so.
ghost use Rattle.std.specs.Prelude.{◌≡◌, ◌≤◌, ◌∷◌, ◌++◌, [], IfOk, IsTrue, OnOk, codes, length, option_map, string_bytes, vec_len};
ghost use Rattle.std.specs.List.{list_any};
ghost use Rattle.std.specs.Str.{bytes_eq};
ghost use Rattle.toml.specs.Data.{array, get_member};
ghost use Rattle.toml.specs.View.{items_view, table_view, view};
ghost use Rattle.loop_station_words.specs.Config.{AreCameras, HasBuffers, IsConfig, SayCameras, SaysConfig, SaysOne, SaysSource, SaysText};
ghost use Rattle.loop_station_words.specs.Files.{share_file};
ghost use Rattle.loop_station_words.specs.Names.{is_name};

use crate::choices::{AnswersForm, LossesFrom, MemoryLimit, StoreSize, TimesFrom, WhenFull};
use crate::fault::{CameraFault, ConfigFault};
use crate::fields::{
    after_at, buffers_at, check_keys, form_at, losses_at, memory_at, number_at, path_at, room_at,
    shape_at, small_at, text_at, times_at, truth_at, value_at,
};
use crate::files::share_file;
use crate::key::unknown_key;
use crate::name::is_name;
use crate::rule::rule_at;
use crate::shape::FrameShape;
use std::alloc::{AllocError, Global};
use toml::{Table, Value};

/// The most cameras.
pub const MAX_CAMERAS: usize = 16;

// The keys of the file.
const KEYS: [&str; 8] = [
    "orders",
    "answers",
    "answers_form",
    "saves",
    "times",
    "events",
    "when_full",
    "camera",
];

/// What the file says.
#[derive(Drop)]
pub struct Config {
    /// The pipe or file that orders are read from; without one, they are read from the program's own input.
    pub orders: Option<String>,
    /// The file or pipe that also gets everything that is printed.
    pub answers: Option<String>,
    /// The form of what that file or pipe gets.
    pub answers_form: AnswersForm,
    /// The only folder in which orders may write files; without one, they may write anywhere.
    pub saves: Option<String>,
    /// Each line begins with the date and time of day.
    pub times: bool,
    /// Events are printed: what happens without an order.
    pub events: bool,
    /// What a camera does where every block is locked, unless it says so itself.
    pub when_full: Option<WhenFull>,
    /// The cameras, in their order.
    pub cameras: Vec<CameraConfig>,
}

/// What the file says of a camera.
#[derive(Drop)]
pub struct CameraConfig {
    /// Its name.
    pub name: String,
    /// Where its frames come from.
    pub source: Source,
    /// The file of its store; of several stores, their files have its path with a number.
    pub store: String,
    /// How much its stores hold, where they are created.
    pub room: StoreSize,
    /// How many seconds before the order `keep` locks.
    pub seconds: u32,
    /// How many seconds after the order `keep` locks, 3600 at most.
    pub after: u32,
    /// The tag that `keep` gives.
    pub tag: u64,
    /// How many buffers its frames come through, 4 to 32.
    pub buffers: u32,
    /// How much memory its source's frames may take while the disk is slow, if that is said.
    pub memory: Option<MemoryLimit>,
    /// The folder that each of its kept clips is saved to by itself.
    pub save_to: Option<String>,
    /// A clip that was saved there is released.
    pub release: bool,
    /// Where the times of its frames come from.
    pub times_from: TimesFrom,
    /// How it is known which frames its source lost.
    pub losses: LossesFrom,
    /// What is done where every block is locked, if that is said.
    pub when_full: Option<WhenFull>,
}

/// Where a camera's frames come from.
#[derive(Drop)]
pub enum Source {
    /// The pattern, of this shape.
    Pattern(FrameShape),
    /// The YUV4MPEG2 file or pipe of this path.
    Path(String),
}

/// Reads the text of a configuration file, which is TOML. Returns the first fault alone where there is one.
pub fn read_config(alloc: Global, text: &str) -> Result<Config, ConfigFault>
    ensures good { IfOk result IsConfig }
    ensures says { IfOk result (SaysText text.now) }
{
    match toml::table_from_str(alloc, text) {
        Ok(table) => config_of(alloc, &table),
        Err(fault) => match fault.span() {
            None => Err(ConfigFault::NoMemory),
            Some(span) => Err(ConfigFault::BadToml(line_at(text, span.start))),
        },
    }
}

// The number, from 1, of the line that has the byte at this offset.
fn line_at(text: &str, at: usize) -> u64 {
    let mut line: u64 = 1;
    for (i, byte) in text.bytes().enumerate() {
        if i < at && byte == b'\n' {
            line = line.saturating_add(1);
        }
    }
    line
}

// The configuration that a table says.
fn config_of(alloc: Global, table: &Table) -> Result<Config, ConfigFault>
    ensures good { IfOk result IsConfig }
    ensures says { IfOk result (SaysConfig (table_view table.now)) }
{
    if let Some(key) = unknown_key(alloc, table, &KEYS)? {
        return Err(ConfigFault::UnknownKey(key));
    }
    let cameras = cameras_of(alloc, camera_tables(table)?)?;
    let orders = path_at(table, "orders").ok_or(ConfigFault::BadOrders)?;
    let answers = path_at(table, "answers").ok_or(ConfigFault::BadAnswers)?;
    let saves = path_at(table, "saves").ok_or(ConfigFault::BadSaves)?;
    if orders.is_some() && orders == answers {
        return Err(ConfigFault::SamePath);
    }
    Ok(Config {
        orders: copied(alloc, orders)?,
        answers: copied(alloc, answers)?,
        answers_form: form_at(table).ok_or(ConfigFault::BadAnswersForm)?,
        saves: copied(alloc, saves)?,
        times: truth_at(table, "times", true).ok_or(ConfigFault::BadTimes)?,
        events: truth_at(table, "events", true).ok_or(ConfigFault::BadEvents)?,
        when_full: rule_at(table).ok_or(ConfigFault::BadWhenFull)?,
        cameras,
    })
}

// The tables of the cameras, 1 to 16.
fn camera_tables(table: &Table) -> Result<&[Value], ConfigFault>
    ensures count { IfOk result (λ tables. (1 ≤ length tables.now) × (length tables.now ≤ 16)) }
    ensures tables { IfOk result (λ tables.
        get_member (codes "camera") (table_view table.now) ≡ Some (array (items_view tables.now))) }
{
    let tables = match value_at(table, "camera") {
        None => return Err(ConfigFault::NoCameras),
        Some(Value::Array(tables)) => tables.as_slice(),
        Some(_) => return Err(ConfigFault::BadCameras),
    };
    if tables.is_empty() {
        return Err(ConfigFault::NoCameras);
    }
    if tables.len() > MAX_CAMERAS {
        return Err(ConfigFault::TooMany);
    }
    Ok(tables)
}

// A copy of a text, if there is one.
fn copied(alloc: Global, text: Option<&str>) -> Result<Option<String>, AllocError>
    ensures { IfOk result (λ copy. option_map string_bytes copy ≡ option_map (λ t. t.now) text.entry) }
{
    match text {
        Some(text) => Ok(Some(String::from_str(alloc, text)?)),
        None => Ok(None),
    }
}

// The cameras that an array's tables describe.
fn cameras_of(alloc: Global, tables: &[Value]) -> Result<Vec<CameraConfig>, ConfigFault>
    ensures cameras { IfOk result (λ cameras. AreCameras cameras.items) }
    ensures count { IfOk result (λ cameras. vec_len cameras ≡ length tables.now) }
    ensures says { IfOk result (λ cameras. SayCameras (items_view tables.now) cameras.items) }
{
    let mut cameras = Vec::new(alloc);
    for (i, table) in tables.iter().enumerate() {
        match camera_of(alloc, table) {
            Err(CameraFault::NoMemory) => return Err(ConfigFault::NoMemory),
            Err(fault) => return Err(ConfigFault::Camera(i + 1, fault)),
            Ok(camera) => add_camera(&mut cameras, i + 1, camera)?,
        }
    }
    Ok(cameras)
}

// Adds a camera after the others, none of which may have its name or its store.
fn add_camera(
    cameras: &mut Vec<CameraConfig>,
    place: usize,
    camera: CameraConfig,
) -> Result<(), ConfigFault>
    requires cameras { AreCameras cameras.old.items }
    requires name { IsTrue (is_name (string_bytes camera.name)) }
    requires buffers { HasBuffers camera.buffers }
    ensures cameras { OnOk result (AreCameras cameras.new.items) }
    ensures pushed { OnOk result (cameras.new.items ≡ cameras.old.items ++ camera ∷ []) }
{
    if has_name(cameras, camera.name.as_str()) {
        return Err(ConfigFault::Camera(place, CameraFault::SameName));
    }
    if has_store(cameras, camera.store.as_str()) {
        return Err(ConfigFault::Camera(place, CameraFault::SameStore));
    }
    cameras.push(camera)?;
    Ok(())
}

// Whether a camera has this name.
fn has_name(cameras: &[CameraConfig], name: &str) -> bool
    ensures { result ≡ list_any (λ c. bytes_eq (string_bytes c.name) name.now) cameras.now }
{
    cameras.iter().any(|camera| camera.name.as_str() == name)
}

// Whether a camera could have a file of this store.
fn has_store(cameras: &[CameraConfig], store: &str) -> bool
    ensures { result ≡ list_any (λ c. share_file (string_bytes c.store) store.now) cameras.now }
{
    cameras
        .iter()
        .any(|camera| share_file(camera.store.as_str(), store))
}

// What a table says of a camera.
fn camera_of(alloc: Global, table: &Value) -> Result<CameraConfig, CameraFault>
    ensures name { IfOk result (λ camera. IsTrue (is_name (string_bytes camera.name))) }
    ensures buffers { IfOk result (λ camera. HasBuffers camera.buffers) }
    ensures says { IfOk result (SaysOne (view table.now)) }
{
    let table = match table {
        Value::Table(table) => table,
        _ => return Err(CameraFault::NoTable),
    };
    check_keys(alloc, table)?;
    let name = match text_at(table, "name") {
        Some(name) if is_name(name) => name,
        _ => return Err(CameraFault::BadName),
    };
    let store = text_at(table, "store").ok_or(CameraFault::BadStore)?;
    let save_to = path_at(table, "save_to").ok_or(CameraFault::BadSaveTo)?;
    let release = truth_at(table, "release", false).ok_or(CameraFault::BadRelease)?;
    if release && save_to.is_none() {
        return Err(CameraFault::NoSaveTo);
    }
    Ok(CameraConfig {
        name: String::from_str(alloc, name)?,
        source: source_of(alloc, table)?,
        store: String::from_str(alloc, store)?,
        room: room_at(table)?,
        seconds: small_at(table, "keep", 60).ok_or(CameraFault::BadSeconds)?,
        after: after_at(table).ok_or(CameraFault::BadAfter)?,
        tag: number_at(table, "tag", 0, u64::MAX).ok_or(CameraFault::BadTag)?,
        buffers: buffers_at(table).ok_or(CameraFault::BadBuffers)?,
        memory: memory_at(table).ok_or(CameraFault::BadMemory)?,
        save_to: copied(alloc, save_to)?,
        release,
        times_from: times_at(table).ok_or(CameraFault::BadTimesFrom)?,
        losses: losses_at(table).ok_or(CameraFault::BadLosses)?,
        when_full: rule_at(table).ok_or(CameraFault::BadWhenFull)?,
    })
}

// Where a camera's frames come from: the pattern of a shape, or a path.
fn source_of(alloc: Global, table: &Table) -> Result<Source, CameraFault>
    ensures { IfOk result (SaysSource (table_view table.now)) }
{
    let path = text_at(table, "source").ok_or(CameraFault::BadSource)?;
    match shape_at(table, path)? {
        Some(shape) => Ok(Source::Pattern(shape)),
        None => Ok(Source::Path(String::from_str(alloc, path)?)),
    }
}
