//! Lists of cards in the caller's arrays.
ghost use Rattle.std.specs.Prelude.{◌≡◌};
ghost use Rattle.g1_handles.specs.{length, take, IsWritten, FitIn};

use g1_layout::Card;

/// Writes the numbers of the cards to the front of an array, which has room for them, and returns
/// how many these are. The elements behind them stay as they are.
pub fn write_list(cards: &[Card], array: &mut [u32]) -> u32
    requires { FitIn (length array.old) cards.now }
    ensures list { take result array.new ≡ cards.now }
    ensures written { IsWritten array.old result array.new }
{
    for i in 0..cards.len() {
        array[i] = cards[i].number();
    }
    cards.len() as u32
}
