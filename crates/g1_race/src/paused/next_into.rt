//! Where the next card is that is recorded for one of several regions.
ghost use Rattle.std.specs.Prelude.{◌≡◌, ◌/◌, ◌<◌, ◌↔◌};
ghost use Rattle.g1_race.specs.{IsTrue, IfSome, All, Contains, card_count, table_at, IsNext};
ghost use Rattle.g1_race.specs.{IsNextInto, is_of_any, joined_word, reader_race, race_id};
ghost use Rattle.g1_race.specs.{race_layout, table_read};

use crate::bits::bit_of;
use crate::paused::Paused;
use crate::paused::holds::HoldsRace;
use crate::paused::next::card_at;
use crate::paused::reading::Reader;
use crate::race::Race;
use g1_layout::Card;

impl<R: HoldsRace> Paused<R> {
    /// Returns the least card from the number `from` on that lies outside the regions of these
    /// numbers and is recorded for one of them, or `None` if there is none. So a walk over a
    /// collection set meets each card once. To walk over all of them, ask again as with
    /// [`Paused::next_dirty`].
    ///
    /// Reads for each of the regions a word for each 64 cards up to the one that it returns, and
    /// one more for each of the regions in which it passes over a card. Takes no memory.
    pub fn next_into(&mut self, regions: &[u32], from: u32) -> Option<Card>
        requires { All (λ region. region < self.old.layout.regions) regions.now }
        ensures next { IsNextInto (table_at self.old) regions.now from result }
        ensures within { IfSome result (λ card. card < card_count self.old.layout) }
        ensures same { self.new ≡ self.old }
    {
        self.reader.next_into(self.race.race(), regions, from)
    }
}

impl Reader {
    // The least such card.
    fn next_into(&mut self, race: &Race, regions: &[u32], from: u32) -> Option<Card>
        requires reader { reader_race self.old ≡ race_id race.now }
        requires regions { All (λ region. region < (race_layout race.now).regions) regions.now }
        ensures next { IsNextInto (table_read race.now self.old) regions.now from result }
        ensures within { IfSome result (λ card. card < card_count (race_layout race.now)) }
        ensures same { self.new ≡ self.old }
    {
        self.begun(race);
        let (_, cards, _) = race.layout.counts();
        let mut next = from as usize;
        while let Some(number) = self.next_in_rows(race, regions, next) {
            let card = card_at(race, number);
            let region = race.layout.region_of_card(card).number();
            if !regions.contains(&region) {
                return Some(card);
            }
            next = (region as usize + 1) * cards as usize;
        }
        None
    }

    // The least card at or after `from` that is of the set of one of the regions.
    #[tactic(auto, using(crate::proofs::any_past, crate::proofs::none_of_block))]
    fn next_in_rows(&mut self, race: &Race, regions: &[u32], from: usize) -> Option<usize>
        requires reader { reader_race self.old ≡ race_id race.now }
        requires regions { All (λ region. region < race.now.shape.regions) regions.now }
        ensures next { IsNext (is_of_any race.now.shape self.old.start.words regions.now)
            race.now.shape.cards from result }
        ensures same { self.new ≡ self.old }
    {
        let cards = race.shape.cards;
        let mut card = from;
        while card < cards {
            let rest = self.joined(race, regions, card) >> (card % 64) as u32;
            if rest != 0 {
                let next = card + rest.trailing_zeros() as usize;
                return if next < cards { Some(next) } else { None };
            }
            card = (card / 64 + 1) * 64;
        }
        None
    }

    // The bits of the card's block of 64 that are set in the row of one of the regions.
    fn joined(&mut self, race: &Race, regions: &[u32], card: usize) -> u64
        requires reader { reader_race self.old ≡ race_id race.now }
        requires regions { All (λ region. region < race.now.shape.regions) regions.now }
        requires card { card < race.now.shape.cards }
        ensures bits { result
            ≡ joined_word race.now.shape self.old.start.words (card / 64) regions.now }
        ensures same { self.new ≡ self.old }
    {
        let mut bits = 0;
        for i in 0..regions.len() {
            let (at, _) = bit_of(race.shape, card, regions[i] as usize);
            bits |= self.see(race, at);
        }
        bits
    }
}
