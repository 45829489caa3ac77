//! A heap whose stores race, from its birth to its end: at a pause, being read there by several
//! threads, or with its parties out.
ghost use Rattle.std.specs.Prelude.{◌≡◌, ◌+◌, ◌≤◌};
ghost use Rattle.g1_handles.specs.Prelude.{All, length, vec_len, vec_capacity};
ghost use Rattle.g1_handles.specs.Prelude.{arc_value, race_id, race_layout, race_shape};

use crate::party::{Party, Role};
use g1_race::{Paused, Race, Racer, Reader, Reading, Sweeper};
use std::alloc::Global;
use std::sync::Arc;

/// A heap at a pause.
#[derive(Drop)]
pub struct AtPause {
    pub(crate) race: Arc<Race, Global>,
    pub(crate) pause: Paused<Arc<Race, Global>>,
    // Its racers and its sweepers wait, each in the box that its handle gets back.
    pub(crate) racers: Vec<Box<Party<Racer>>>,
    pub(crate) sweepers: Vec<Box<Party<Sweeper>>>,
    pub(crate) readers: Readers,
    ghost id: { race_id (arc_value race) ≡ (pause.table_id, pause.shape) },
    ghost laid: { race_layout (arc_value race) ≡ pause.layout },
    ghost racer_boxes: { vec_len racers ≡ length pause.logs },
    ghost sweeper_boxes: { vec_len sweepers ≡ pause.sweepers },
    ghost reader_boxes: { vec_len readers.idle ≡ pause.shape.parties },
    ghost racers_wait: { All (λ m. arc_value m.value.race ≡ arc_value race) racers.items },
    ghost sweepers_wait: { All (λ m. arc_value m.value.race ≡ arc_value race) sweepers.items },
    ghost readers_wait: { All (λ m. arc_value m.value.race ≡ arc_value race) readers.idle.items },
}

/// A heap at a pause that readers read. Nothing changes meanwhile.
#[derive(Drop)]
pub struct BeingRead {
    pub(crate) race: Arc<Race, Global>,
    pub(crate) reading: Reading<Arc<Race, Global>>,
    // As at the pause.
    pub(crate) racers: Vec<Box<Party<Racer>>>,
    pub(crate) sweepers: Vec<Box<Party<Sweeper>>>,
    pub(crate) readers: Readers,
    ghost id: { race_id (arc_value race) ≡ (reading.pause.table_id, reading.pause.shape) },
    ghost laid: { race_layout (arc_value race) ≡ reading.pause.layout },
    ghost racer_boxes: { vec_len racers ≡ length reading.pause.logs },
    ghost sweeper_boxes: { vec_len sweepers ≡ reading.pause.sweepers },
    ghost table: { reading.table_id ≡ reading.pause.table_id },
    ghost out: { reading.readers ≡ readers.out.count },
    ghost reader_boxes: { vec_len readers.idle + readers.out.count ≡ reading.pause.shape.parties },
    ghost racers_wait: { All (λ m. arc_value m.value.race ≡ arc_value race) racers.items },
    ghost sweepers_wait: { All (λ m. arc_value m.value.race ≡ arc_value race) sweepers.items },
    ghost readers_wait: { All (λ m. arc_value m.value.race ≡ arc_value race) readers.idle.items },
}

/// The readers of a heap, with room for as many as it has racers and sweepers, so that no call at a
/// pause takes memory.
#[derive(Drop)]
pub struct Readers {
    // The boxes of those that read nothing. The others are in their handles.
    pub(crate) idle: Vec<Box<Party<Reader>>>,
    pub(crate) out: Room<Reader>,
    ghost idle_room: { vec_len idle + out.count ≤ vec_capacity idle },
    ghost role_room: { vec_len idle + out.count ≤ vec_capacity out.roles },
    ghost box_room: { vec_len idle + out.count ≤ vec_capacity out.boxes },
}

/// Room for the racers, the sweepers or the readers that are out, so that they are taken in without
/// memory.
#[derive(Drop)]
pub struct Room<P: Role> {
    pub(crate) count: usize,
    // Both are empty between two calls.
    pub(crate) roles: Vec<P>,
    pub(crate) boxes: Vec<Box<Party<P>>>,
    ghost role_room: { count ≤ vec_capacity roles },
    ghost box_room: { count ≤ vec_capacity boxes },
}

/// A heap whose parties are out.
#[derive(Drop)]
pub struct UnderWay {
    pub(crate) race: Arc<Race, Global>,
    pub(crate) racers: Room<Racer>,
    pub(crate) sweepers: Room<Sweeper>,
    // None is out.
    pub(crate) readers: Readers,
    ghost all: { racers.count + sweepers.count ≡ (race_shape (arc_value race)).parties },
    ghost reader_boxes: { vec_len readers.idle ≡ (race_shape (arc_value race)).parties },
    ghost readers_wait: { All (λ m. arc_value m.value.race ≡ arc_value race) readers.idle.items },
}

/// A heap whose stores race.
#[derive(Drop)]
pub enum RacingHeap {
    /// It is at a pause, and its parties are in.
    Paused(AtPause),
    /// It is at a pause, its parties are in, and readers read it.
    Read(BeingRead),
    /// Its parties are out.
    Racing(UnderWay),
}
