//! What a reader answers, as the heap does at its pause.
ghost use Rattle.g1_handles.specs.{reference_of, reader_layout, table_of_reader, TellsTarget};
ghost use Rattle.g1_handles.specs.{TellsPending, TellsNextMember, TellsWord, ReadsPair, LacksCard};
ghost use Rattle.g1_handles.specs.{LacksPair, LacksRegion, LacksSlot, IsAnsweredByReader};

use crate::code::{NULL, Reason};
use crate::one_core::queries::reference_word;
use crate::party::Party;
use g1_race::Reader;

/// Returns the word of what a slot refers to, by a reader, or `NotOpen` or `NoSlot`. The reader
/// stays as it is.
pub fn target_by(party: &mut Party<Reader>, slot: u32) -> Result<u32, Reason>
    ensures { IsAnsweredByReader party.old result party.new (λ a word. TellsTarget
        (table_of_reader a) slot (reference_of word)) (λ a. LacksSlot (reader_layout a) slot) }
{
    let Some(reader) = &mut party.role else {
        return Err(Reason::NotOpen);
    };
    let layout = party.race.layout();
    let slot = layout.slot(slot).ok_or(Reason::NoSlot)?;
    Ok(reference_word(layout, reader.target(&party.race, slot)))
}

/// Returns a slot's word, by a reader: 0 for null, the number of the slot that it refers to plus 1,
/// or data from 2^32 on. Returns `NotOpen` or `NoSlot` if the call was refused. The reader stays as
/// it is.
pub fn word_by(party: &mut Party<Reader>, slot: u32) -> Result<u64, Reason>
    ensures { IsAnsweredByReader party.old result party.new (λ a word. TellsWord
        (reader_layout a) a.reader.start slot word) (λ a. LacksSlot (reader_layout a) slot) }
{
    let Some(reader) = &mut party.role else {
        return Err(Reason::NotOpen);
    };
    let slot = party.race.layout().slot(slot).ok_or(Reason::NoSlot)?;
    Ok(reader.word(&party.race, slot))
}

/// Returns whether a card is pending, by a reader, or `NotOpen` or `NoCard`. The reader stays as it
/// is.
pub fn is_pending_by(party: &mut Party<Reader>, card: u32) -> Result<bool, Reason>
    ensures { IsAnsweredByReader party.old result party.new (λ a answer. TellsPending
        (table_of_reader a) card answer) (λ a. LacksCard (reader_layout a) card) }
{
    let Some(reader) = &mut party.role else {
        return Err(Reason::NotOpen);
    };
    let card = party.race.layout().card(card).ok_or(Reason::NoCard)?;
    Ok(reader.is_pending(&party.race, card))
}

/// Returns whether a card is recorded for a region, by a reader, or `NotOpen`, `NoCard` or
/// `NoRegion`. The reader stays as it is.
pub fn has_by(party: &mut Party<Reader>, card: u32, region: u32) -> Result<bool, Reason>
    ensures { IsAnsweredByReader party.old result party.new (λ a answer.
        ReadsPair a card region answer) (λ a. LacksPair (reader_layout a) card region) }
{
    let Some(reader) = &mut party.role else {
        return Err(Reason::NotOpen);
    };
    let layout = party.race.layout();
    let card = layout.card(card).ok_or(Reason::NoCard)?;
    let region = layout.region(region).ok_or(Reason::NoRegion)?;
    Ok(reader.has(&party.race, card, region))
}

/// Returns the word of the least card from the number `from` on that is recorded for a region, or
/// of null if there is none, by a reader. Returns `NotOpen` or `NoRegion` if the call was refused.
/// The reader stays as it is.
pub fn next_member_by(party: &mut Party<Reader>, region: u32, from: u32) -> Result<u32, Reason>
    ensures { IsAnsweredByReader party.old result party.new (λ a word. TellsNextMember
        (table_of_reader a) region from (reference_of word))
        (λ a. LacksRegion (reader_layout a) region) }
{
    let Some(reader) = &mut party.role else {
        return Err(Reason::NotOpen);
    };
    let layout = party.race.layout();
    let _limit = layout.card_count();
    let region = layout.region(region).ok_or(Reason::NoRegion)?;
    match reader.next_member(&party.race, region, from) {
        Some(card) => Ok(card.number()),
        None => Ok(NULL),
    }
}
