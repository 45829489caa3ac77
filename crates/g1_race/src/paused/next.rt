//! Where the next dirty card is, and the next card of a region's set.
ghost use Rattle.std.specs.Prelude.{◌≡◌, ◌+◌, ◌*◌, ◌<◌, ◌≤◌};
ghost use Rattle.g1_race.specs.{[], length, vec_capacity, IsNext, SkipsNone, is_marked, is_member};
ghost use Rattle.g1_race.specs.{AreWithin, is_sought, sought_cards, pair_count, reader_race};
ghost use Rattle.g1_race.specs.{race_id, IfSome, IsFlaggedFrom};

use crate::bits::bit_of;
use crate::paused::reading::Reader;
use crate::race::Race;
use g1_layout::Card;

// Which cards are sought.
#[derive(Clone, Copy)]
pub(crate) enum Sought {
    Dirty,
    // Those of a region's set.
    Of(usize),
}

impl Reader {
    // The least dirty card at or after `from`.
    pub(crate) fn next_marked(&mut self, race: &Race, from: usize) -> Option<usize>
        requires { reader_race self.old ≡ race_id race.now }
        ensures next { IsNext (is_marked race.now.shape self.old.start.words) race.now.shape.cards
            from result }
        ensures same { self.new ≡ self.old }
    {
        let mut next = from;
        while let Some(card) = self.next_flagged(race, next) {
            if self.see(race, race.shape.slots + card) == 1 {
                return Some(card);
            }
            next = card + 1;
        }
        None
    }

    // A card at or after `from`, and none between the two is dirty: the first of the next eight
    // that have their flag set, or `from` itself where it is not the first of its eight.
    #[tactic(auto, using(crate::proofs::skips_none, crate::proofs::flagged_from))]
    fn next_flagged(&mut self, race: &Race, from: usize) -> Option<usize>
        requires { reader_race self.old ≡ race_id race.now }
        ensures next { let words = self.old.start.words in
            SkipsNone (is_marked race.now.shape words) race.now.shape.cards from result }
        ensures flagged { let heap = race.now.shape in
            IfSome result (IsFlaggedFrom heap self.old.start.words from) }
        ensures same { self.new ≡ self.old }
    {
        self.begun(race);
        if from % 8 == 0 {
            return self.next_in_row(race, from, race.shape.cards, race.shape.regions);
        }
        if from < race.shape.cards {
            Some(from)
        } else {
            None
        }
    }

    // The least card at or after `from` and before `end` that is of the region's set, or in the row
    // of flags the least whose flag is set.
    #[tactic(auto, using(crate::proofs::next_past, crate::proofs::none_of_word))]
    pub(crate) fn next_in_row(
        &mut self,
        race: &Race,
        from: usize,
        end: usize,
        region: usize,
    ) -> Option<usize>
        requires reader { reader_race self.old ≡ race_id race.now }
        requires end { end ≤ race.now.shape.cards }
        requires region { region ≤ race.now.shape.regions }
        ensures next { IsNext (is_member race.now.shape self.old.start.words region) end from
            result }
        ensures same { self.new ≡ self.old }
    {
        let shape = race.shape;
        let mut card = from;
        while card < end {
            let (at, index) = bit_of(shape, card, region);
            let rest = self.see(race, at) >> index;
            if rest != 0 {
                let next = card + rest.trailing_zeros() as usize;
                return if next < end { Some(next) } else { None };
            }
            card = (card / 64 + 1) * 64;
        }
        None
    }

    // The least of these cards at or after `from`.
    #[inline(always)]
    fn next_sought(&mut self, race: &Race, sought: Sought, from: usize) -> Option<usize>
        requires reader { reader_race self.old ≡ race_id race.now }
        requires within { AreWithin race.now.shape sought }
        ensures next { IsNext (is_sought sought race.now.shape self.old.start.words)
            race.now.shape.cards from result }
        ensures same { self.new ≡ self.old }
    {
        match sought {
            Sought::Dirty => self.next_marked(race, from),
            Sought::Of(region) => self.next_in_row(race, from, race.shape.cards, region),
        }
    }

    // How many of the cards there are.
    #[inline(always)]
    #[tactic(auto, using(crate::proofs::cards_fit, crate::proofs::few))]
    pub(crate) fn count(&mut self, race: &Race, sought: Sought) -> usize
        requires reader { reader_race self.old ≡ race_id race.now }
        requires within { AreWithin race.now.shape sought }
        ensures count { result ≡ length (sought_cards sought race.now.shape self.old.start.words) }
        ensures same { self.new ≡ self.old }
    {
        let mut count = 0;
        let mut from = 0;
        while let Some(card) = self.next_sought(race, sought, from) {
            count += 1;
            from = card + 1;
        }
        count
    }

    // Lists the cards.
    #[inline(always)]
    pub(crate) fn list(&mut self, race: &Race, sought: Sought, cards: &mut Vec<Card>)
        requires reader { reader_race self.old ≡ race_id race.now }
        requires within { AreWithin race.now.shape sought }
        requires empty { cards.old.items ≡ [] }
        requires room { length (sought_cards sought race.now.shape self.old.start.words)
            ≤ vec_capacity cards.old }
        ensures cards { cards.new.items
            ≡ sought_cards sought race.now.shape self.old.start.words }
        ensures same { self.new ≡ self.old }
    {
        let mut from = 0;
        while let Some(card) = self.next_sought(race, sought, from) {
            cards.push_reserved(card_at(race, card));
            from = card + 1;
        }
    }

    // How many pairs are recorded.
    pub(crate) fn count_pairs(&mut self, race: &Race) -> usize
        requires { reader_race self.old ≡ race_id race.now }
        ensures count { let words = self.old.start.words in
            result ≡ pair_count race.now.shape words race.now.shape.regions }
        ensures same { self.new ≡ self.old }
    {
        let mut count = 0;
        for region in 0..race.shape.regions {
            count += self.count(race, Sought::Of(region));
        }
        count
    }
}

// The card with a number.
pub(crate) fn card_at(race: &Race, card: usize) -> Card
    requires { card < race.now.shape.cards }
    ensures { result ≡ card }
{
    let Some(card) = race.layout.card(card as u32) else {
        unreachable!()
    };
    card
}
