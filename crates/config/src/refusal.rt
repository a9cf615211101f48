// Why a call is turned down, and the number of each reason.
ghost use Rattle.std.specs.Prelude.{◌≡◌, cond, get_or, Ok, Err};
ghost use Rattle.config.specs.Refusal.{number_of, when_result, numbers, accepted};

// The number of an accepted call.
pub const ACCEPTED: u8 = 0;

// The number of a hand-in that a full urgent queue refuses. It is no refusal of the call: that counts as accepted, moves the last time and uses
// up a sequence number.
pub const QUEUE_FULL: u8 = 12;

// The largest rate, bucket capacity and byte count of the domain.
pub const LARGEST_RATE: u32 = 1000000000;

// The variants stand in the order in which they are looked at: what the input is to blame for, by number, then the state.
#[derive(Clone, Copy, Debug, PartialEq, Eq)]
pub enum Refusal {
    SettingsInvalid = 1,
    SettingsBeyond = 2,
    RecordTooLong = 3,
    SampleBeyond = 4,
    KindUnknown = 5,
    RateBeyond = 6,
    TimeBeyond = 7,
    BufferTooShort = 8,
    CallsUsedUp = 17,
    TimeBack = 11,
    Disabled = 13,
    WriterUnknown = 15,
    WriterKnown = 16,
    TableFull = 14,
}

// An error where a test says so.
pub(crate) fn error_if<E: Drop>(test: bool, error: E) -> Result<(), E>
    ensures { result ≡ cond test (Err error) (Ok tt) }
{
    if test { Err(error) } else { Ok(()) }
}

impl Refusal {
    // Turns the call down where the reason applies.
    pub fn when(self, applies: bool) -> Result<(), Refusal>
        ensures { result ≡ when_result self applies }
    {
        error_if(applies, self)
    }
}

impl From<Refusal> for u8 {
    ghost from_gives = { λ refusal number. number ≡ number_of refusal };

    fn from(refusal: Refusal) -> u8 {
        refusal as u8
    }
}

const IN_ORDER: [u8; 15] = [
    Refusal::SettingsInvalid as u8,
    Refusal::SettingsBeyond as u8,
    Refusal::RecordTooLong as u8,
    Refusal::SampleBeyond as u8,
    Refusal::KindUnknown as u8,
    Refusal::RateBeyond as u8,
    Refusal::TimeBeyond as u8,
    Refusal::BufferTooShort as u8,
    Refusal::CallsUsedUp as u8,
    Refusal::TimeBack as u8,
    Refusal::Disabled as u8,
    Refusal::WriterUnknown as u8,
    Refusal::WriterKnown as u8,
    Refusal::TableFull as u8,
    QUEUE_FULL,
];

// The numbers in the order in which they are looked at, from place 0, for a host that lists them; 0 beyond the last.
pub fn in_order(place: usize) -> u8
    ensures { result ≡ get_or numbers place accepted }
{
    IN_ORDER.get(place).copied().unwrap_or(ACCEPTED)
}
