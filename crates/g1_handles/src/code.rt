//! The codes that calls return.
ghost use Rattle.std.specs.Prelude.{◌≡◌, ◌<◌};
ghost use Rattle.g1_handles.specs.Codes.{kind_word, refusal_word};

use g1_layout::Kind;

/// The call did what its name says.
pub const DONE: u32 = 0;

/// Memory was refused midway: the work that is reported was done, and no more.
pub const SHORT: u32 = 1;

/// The slot has something else than was expected. Nothing was stored.
pub const DIFFERS: u32 = 2;

/// One of several stores names a slot or a target that the heap does not have. Those before it were
/// made. It and the later ones were not.
pub const STOPPED: u32 = 3;

/// The racer's log is full before one of several stores. Those before it were made. It and the
/// later ones were not.
pub const FULL: u32 = 4;

/// The word for null.
pub const NULL: u32 = 4_294_967_295;

/// Why a call was refused. Its words are 8 and above. Lower words say what a call did that was
/// made.
#[derive(Clone, Copy, Debug, PartialEq, Eq)]
pub enum Reason {
    /// The handle is closed.
    NotOpen,
    /// The handle that was to be opened is open.
    AlreadyOpen,
    /// Memory was refused before anything changed.
    NoMemory,
    /// The counts of the heap are outside their limits.
    BadLayout,
    /// The hot limit or the ring's size is outside its limits.
    BadSettings,
    /// The heap has no such slot.
    NoSlot,
    /// The heap has no such card.
    NoCard,
    /// The heap has no such region.
    NoRegion,
    /// An array is too small.
    NoRoom,
    /// More cards or stores were given than a log has room for.
    TooManyCards,
    /// References were to be moved from a region to itself.
    SameRegion,
    /// A clear, while cards are pending.
    StillPending,
    /// A clear, while a slot outside the region refers into it; or a forget, while one inside
    /// refers out.
    StillReferenced,
    /// A racer's log is full.
    LogFull,
    /// The number of racers or sweepers is not the heap's, or more readers were given than it has
    /// parties, or another number than read it; or a heap may not have so many.
    BadHandles,
    /// The handles are not those of all parties, or of all readers, of the heap, each given once.
    OtherRace,
    /// The heap's parties are out, or readers read it.
    NotPaused,
    /// The heap is at a pause: its parties are in.
    NotRacing,
    /// A word below 2^32 where data is stored, or one that no slot may have.
    BadWord,
}

impl Reason {
    /// Returns the word that C gets, which is 8 or more.
    pub fn word(self) -> u32
        ensures number { result ≡ refusal_word self }
        ensures refused { 7 < result }
    {
        match self {
            Reason::NotOpen => 8,
            Reason::AlreadyOpen => 9,
            Reason::NoMemory => 10,
            Reason::BadLayout => 11,
            Reason::BadSettings => 12,
            Reason::NoSlot => 13,
            Reason::NoCard => 14,
            Reason::NoRegion => 15,
            Reason::NoRoom => 16,
            Reason::TooManyCards => 17,
            Reason::SameRegion => 18,
            Reason::StillPending => 19,
            Reason::StillReferenced => 20,
            Reason::LogFull => 22,
            Reason::BadHandles => 23,
            Reason::OtherRace => 24,
            Reason::NotPaused => 25,
            Reason::NotRacing => 26,
            Reason::BadWord => 27,
        }
    }
}

/// The word of a kind of store: 0 to 3.
pub fn kind_word(kind: Kind) -> u32
    ensures { result ≡ kind_word kind }
{
    match kind {
        Kind::Null => 0,
        Kind::SameRegion => 1,
        Kind::AlreadyDirty => 2,
        Kind::Logged => 3,
    }
}
