//! The readers of a pause: seats that share what the pause's one seat knows.
ghost use Rattle.std.specs.Prelude.{◌≡◌, ◌<◌};
ghost use Rattle.g1_race_words.specs.Prelude.{[], some, get_elem?};
ghost use Rattle.g1_race_words.specs.Rule.{word_count};
ghost use Rattle.g1_race_words.specs.Seats.{IsAtPause};
ghost use Rattle.g1_race_words.specs.Steps.{after_split, new_reader};

use crate::table::{RaceSeat, RaceTable};
use crate::view::View;
use atomic_table::{Play, Split};

pub(crate) struct NewReader;

impl Split<View> for NewReader {
    ghost use Rattle.g1_race_words.specs.Steps.{after_split, new_reader};

    ghost left = { after_split };

    ghost right = { new_reader };
}

pub(crate) struct Sees;

impl Play<(), View> for Sees {
    ghost use Rattle.std.specs.Prelude.{◌≡◌};
    ghost use Rattle.g1_race_words.specs.Prelude.{some, get_elem?};

    ghost then = { λ step before found after.
        (after ≡ before) × (get_elem? before.0.began_words step.word ≡ some found) };
}

impl RaceTable {
    /// Splits a reader's seat off the seat of a pause. No word can change until all readers have
    /// joined that seat again.
    pub fn split_reader(&self, pause_seat: &mut RaceSeat) -> RaceSeat
        requires whole { IsAtPause self.now.table_id self.now.shape pause_seat.old }
        requires weight { 0 < pause_seat.old.me.0.weight }
        ensures table { pause_seat.new.table_id ≡ pause_seat.old.table_id }
        ensures left { pause_seat.new.me ≡ (after_split pause_seat.old.me.0, pause_seat.old.me.1) }
        ensures reader { (result.table_id ≡ pause_seat.old.table_id)
            × (result.me ≡ (new_reader pause_seat.old.me.0, [])) }
    {
        RaceSeat {
            seat: self
                .table
                .shared
                .split_seat::<NewReader>(&mut pause_seat.seat),
        }
    }

    /// Reads a word at a pause, and returns it. It is the word that the seat knows.
    pub fn see(&self, seat: &mut RaceSeat, word: usize) -> u64
        requires seat { IsAtPause self.now.table_id self.now.shape seat.old }
        requires weight { 0 < seat.old.me.0.weight }
        requires word { word < word_count self.now.shape }
        ensures word { get_elem? seat.old.me.0.began_words word ≡ some result }
        ensures seat { (seat.new.table_id ≡ seat.old.table_id) × (seat.new.me ≡ seat.old.me) }
    {
        self.table.shared.load::<Sees>(&mut seat.seat, word)
    }
}
