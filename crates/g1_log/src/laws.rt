//! The law of the queue of completed buffers, which its rule keeps.
ghost use Rattle.g1_log.specs.{EachParcelStandsOnce};

/// In each state of the queue, each buffer that a sender has put is exactly once in the queue and
/// all takers' lists together, as the parcel of that sender and of its place among that sender's
/// buffers. No other parcel of that sender is there, and none with a number that no sender has. The
/// call computes nothing.
pub fn each_parcel_stands_once()
    ensures { EachParcelStandsOnce }
{}
