//! Queries by a reader: what a slot refers to and its word, whether a card is pending, and what is
//! recorded for a region.
ghost use Rattle.std.specs.Prelude.{◌≡◌, ◌≤◌, ◌==◌};
ghost use Rattle.g1_c.specs.{ToldByReader, TellsTarget, table_of_reader, reference_of};
ghost use Rattle.g1_c.specs.{LacksSlot, reader_layout, TellsWord, TellsPending, LacksCard};
ghost use Rattle.g1_c.specs.{ReadsPair, LacksPair, TellsNextMember, LacksRegion};

use crate::calling::on_reader;
use crate::tell::{tell, tell_whether};
use g1_handles::code::NULL;
use g1_handles::handles::ReaderHandle;
use g1_handles::party::reader_queries::{
    has_by, is_pending_by, next_member_by, target_by, word_by,
};

/// As in `g1.h`.
#[unsafe(no_mangle)]
pub extern "C" fn g1_reader_target(reader: &mut ReaderHandle, slot: u32, target: &mut u32) -> u32
    ensures { ToldByReader result reader.old reader.new target.new (target.new ≡ 4294967295) (λ
        target a. TellsTarget (table_of_reader a) slot (reference_of target)) (λ a. LacksSlot
        (reader_layout a) slot) }
{
    let answer = on_reader!(reader, target_by(slot));
    tell(answer, NULL, target)
}

/// As in `g1.h`.
#[unsafe(no_mangle)]
pub extern "C" fn g1_reader_word(reader: &mut ReaderHandle, slot: u32, word: &mut u64) -> u32
    ensures { ToldByReader result reader.old reader.new word.new (word.new ≡ 0) (λ word a. TellsWord
        (reader_layout a) a.reader.start slot word) (λ a. LacksSlot (reader_layout a) slot) }
{
    let answer = on_reader!(reader, word_by(slot));
    tell(answer, 0, word)
}

/// As in `g1.h`.
#[unsafe(no_mangle)]
pub extern "C" fn g1_reader_is_pending(
    reader: &mut ReaderHandle,
    card: u32,
    pending: &mut u32,
) -> u32
    ensures told { ToldByReader result reader.old reader.new (pending.new == 1) (pending.new ≡ 0) (λ
        answer a. TellsPending (table_of_reader a) card answer) (λ a. LacksCard (reader_layout a)
        card) }
    ensures word { pending.new ≤ 1 }
{
    let answer = on_reader!(reader, is_pending_by(card));
    tell_whether(answer, pending)
}

/// As in `g1.h`.
#[unsafe(no_mangle)]
pub extern "C" fn g1_reader_has(
    reader: &mut ReaderHandle,
    card: u32,
    region: u32,
    has: &mut u32,
) -> u32
    ensures told { ToldByReader result reader.old reader.new (has.new == 1) (has.new ≡ 0) (λ answer
        a. ReadsPair a card region answer) (λ a. LacksPair (reader_layout a) card region) }
    ensures word { has.new ≤ 1 }
{
    let answer = on_reader!(reader, has_by(card, region));
    tell_whether(answer, has)
}

/// As in `g1.h`.
#[unsafe(no_mangle)]
pub extern "C" fn g1_reader_next_member(
    reader: &mut ReaderHandle,
    region: u32,
    from: u32,
    card: &mut u32,
) -> u32
    ensures { ToldByReader result reader.old reader.new card.new (card.new ≡ 4294967295) (λ card a.
        TellsNextMember (table_of_reader a) region from (reference_of card)) (λ a. LacksRegion
        (reader_layout a) region) }
{
    let answer = on_reader!(reader, next_member_by(region, from));
    tell(answer, NULL, card)
}
