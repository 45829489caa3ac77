//! How readers are made at a pause, and handed in again.
ghost use Rattle.std.specs.Prelude.{◌≡◌, ◌+◌, ◌≤◌};
ghost use Rattle.g1_race.specs.{All, vec_len, vec_capacity, start_of, IsAtPause, race_id};
ghost use Rattle.g1_race.specs.{race_layout, race_words, table_at, IsReaderOf, Known, known};
ghost use Rattle.g1_race.specs.{table_read};

use crate::paused::Paused;
use crate::paused::holds::HoldsRace;
use crate::paused::reading::{Reader, Reading};
use crate::race::Race;
use g1_race_words::{RaceSeat, RaceTable};

impl<R: HoldsRace> Paused<R> {
    /// Returns how many readers a pause can have at most: as many as the race has racers and
    /// sweepers.
    pub fn reader_limit(&self) -> usize
        ensures { result ≡ self.now.shape.parties }
    {
        self.race.race().shape.parties
    }

    /// Lets `count` readers read concurrently, each in a thread of its own, and puts them into the
    /// list. The list must be empty and have room for them, and `count` is at most
    /// [`Paused::reader_limit`].
    ///
    /// Takes no memory and cannot fail. The only steps that it makes are those that split the
    /// seats.
    pub fn read_by(self, readers: &mut Vec<Reader>, count: usize) -> Reading<R>
        requires count { count ≤ self.shape.parties }
        requires empty { vec_len readers.old ≡ 0 }
        requires room { count ≤ vec_capacity readers.old }
        ensures pause { result.pause ≡ self }
        ensures table { result.table_id ≡ self.table_id }
        ensures count { (result.readers ≡ count) × (vec_len readers.new ≡ count) }
        ensures readers { All (IsReaderOf result) readers.new.items }
        ensures room { vec_capacity readers.new ≡ vec_capacity readers.old }
    {
        let Paused {
            race,
            reader: Reader { mut seat },
            racers,
            sweepers,
        } = self;
        seat_readers(&race.race().table, &mut seat, readers, count);
        Reading {
            race,
            seat,
            racers,
            sweepers,
        }
    }
}

impl<R: HoldsRace> Reading<R> {
    /// Returns the race, which readers pass to their calls. Threads share it by `&`. What a reader
    /// of this pause knows of the race is the table of the pause.
    pub fn race(&self) -> &Race
        ensures race { race_id result.now ≡ (self.now.table_id, self.now.pause.shape) }
        ensures layout { race_layout result.now ≡ self.now.pause.layout }
        ensures words { race_words result.now ≡ self.now.pause.address }
        ensures table { (reader : Known) → IsReaderOf self.now reader →
            table_read result.now reader ≡ table_at self.now.pause }
    {
        self.race.race()
    }

    /// Ends the reading, and returns the pause as it was. All readers must be handed in. The list
    /// is then empty, and keeps its room for the next time.
    ///
    /// Takes no memory and cannot fail. The only steps that it makes are those that join the seats.
    pub fn pause(self, readers: &mut Vec<Reader>) -> Paused<R>
        requires count { vec_len readers.old ≡ self.readers }
        requires readers { All (IsReaderOf self) readers.old.items }
        ensures pause { result ≡ self.pause }
        ensures empty { vec_len readers.new ≡ 0 }
        ensures room { vec_capacity readers.new ≡ vec_capacity readers.old }
    {
        let Reading {
            race,
            mut seat,
            racers,
            sweepers,
        } = self;
        let table = &race.race().table;
        join_readers(table, &mut seat, readers);
        Paused {
            race,
            reader: Reader { seat },
            racers,
            sweepers,
        }
    }
}

// Splits off a seat for each reader.
fn seat_readers(
    table: &RaceTable,
    pause_seat: &mut RaceSeat,
    readers: &mut Vec<Reader>,
    count: usize,
)
    requires seat { IsAtPause table.now.table_id table.now.shape pause_seat.old }
    requires weight { count ≤ pause_seat.old.me.0.weight }
    requires empty { vec_len readers.old ≡ 0 }
    requires room { count ≤ vec_capacity readers.old }
    ensures seat { IsAtPause table.now.table_id table.now.shape pause_seat.new }
    ensures start { start_of pause_seat.new.me.0 ≡ start_of pause_seat.old.me.0 }
    ensures weight { pause_seat.new.me.0.weight + count ≡ pause_seat.old.me.0.weight }
    ensures count { vec_len readers.new ≡ count }
    ensures readers { let begin = start_of pause_seat.old.me.0 in
        All (λ r. r ≡ known table.now.table_id begin) readers.new.items }
    ensures room { vec_capacity readers.new ≡ vec_capacity readers.old }
{
    for _i in 0..count {
        let seat = table.split_reader(pause_seat);
        readers.push_reserved(Reader { seat });
    }
}

// Joins the readers' seats to the one that they were split from.
fn join_readers(table: &RaceTable, pause_seat: &mut RaceSeat, readers: &mut Vec<Reader>)
    requires seat { IsAtPause table.now.table_id table.now.shape pause_seat.old }
    requires readers { let begin = start_of pause_seat.old.me.0 in
        All (λ r. r ≡ known table.now.table_id begin) readers.old.items }
    ensures seat { IsAtPause table.now.table_id table.now.shape pause_seat.new }
    ensures start { start_of pause_seat.new.me.0 ≡ start_of pause_seat.old.me.0 }
    ensures weight { pause_seat.new.me.0.weight ≡ pause_seat.old.me.0.weight + vec_len readers.old }
    ensures empty { vec_len readers.new ≡ 0 }
    ensures room { vec_capacity readers.new ≡ vec_capacity readers.old }
{
    while let Some(reader) = readers.pop() {
        let Reader { seat } = reader;
        table.join(pause_seat, seat);
    }
}
