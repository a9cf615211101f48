// The items of a tape: little-endian 32-bit words taken apart.
#![tactic(auto, unfolding(crate::specs::Item::word_at, crate::specs::Item::whole, crate::specs::Item::register_of, crate::specs::Item::signal_of, crate::specs::Item::hand_in_of, crate::specs::Item::item_by, crate::specs::Item::item_at, crate::specs::Item::takes, crate::specs::Item::key_at, queue::specs::Pool::piece))]

ghost use Rattle.std.specs.Prelude.{◌≡◌, ◌+◌, ◌≤◌};
ghost use Rattle.std.specs.Iterator.{YieldsFirst, item_count};
ghost use Rattle.tape.specs.Item.{words_of, words_from, word_at, whole, register_of, rtt_of, signal_of, key_words, hand_in_words, hand_in_of, item_of, item_at, takes, hash_of, key_at, body_at, items_of, items_left};

use config::config::Priority;
use queue::entry::InstanceKey;
use queue::pool;

// The bytes of a word.
const WORD: usize = 4;

// The top four bits are the kind, the rest the value.
const KIND: u32 = 268435456;

// An item of a tape, as its first word and those that belong to it say.
// `Broken` is number 5: an unknown kind or class, an item cut short, or the end that is missing.
#[derive(Clone, Copy, Debug, PartialEq, Eq)]
pub enum Item {
    End,
    Broken,
    // Microseconds.
    Advance(u32),
    Register {
        class: Priority,
        id: u32,
    },
    Eagain,
    Tos(u8),
    Nacks(u32),
    Rtt {
        peer: u32,
        bits: u32,
    },
    Tick,
    HandIn {
        pacer: u8,
        class: Priority,
        length: u16,
    },
    Send(u8),
    SetRate(u32),
}

// An item, and the index of its first word.
#[derive(Clone, Copy, Debug, PartialEq, Eq)]
pub struct Placed {
    pub index: usize,
    pub item: Item,
}

// What of a tape is still to be read: from a word on, or nothing where the tape has stopped.
#[derive(Drop)]
pub struct Items<'a> {
    tape: &'a [u8],
    next: Option<usize>,
}

impl<'a> Items<'a> {
    // All items of a tape.
    #[tactic(auto, using(crate::proofs::Items::items_first))]
    pub fn new(tape: &'a [u8]) -> Items<'a>
        ensures { items_left result ≡ items_of tape.now }
    {
        Items {
            tape,
            next: Some(0),
        }
    }
}

// One item after the other, up to the end, which is none itself, or to what is broken, which is the last.
impl Iterator for Items<'_> {
    type Item = Placed;

    ghost next_gives = { YieldsFirst items_left };

    ghost remaining = { item_count items_left };

    #[inline(always)]
    #[tactic(auto, using(crate::proofs::Items::item_steps))]
    fn next(&mut self) -> Option<Placed> {
        let index = self.next?;
        let words = Words {
            tape: self.tape,
            first: index,
        };
        let item = words.item();
        self.next = None;
        match item {
            Item::End => return None,
            Item::Broken => {}
            _ => self.next = Some(index + words_taken(item)),
        }
        Some(Placed { index, item })
    }
}

// The words of a tape of so many bytes; a last word short of 4 bytes counts.
pub fn words_of(bytes: usize) -> usize
    ensures { result ≡ words_of bytes }
{
    bytes.div_ceil(WORD)
}

#[inline(always)]
fn register_of(value: u32) -> Item
    ensures { result ≡ register_of value }
{
    match Priority::try_from((value % 4) as u8) {
        Ok(class) => Item::Register {
            class,
            id: value / 4,
        },
        Err(_) => Item::Broken,
    }
}

// The words of a key.
// Stays: [4] 0 and 4 do not number the classes: they are lengths in words, which the format gives.
#[inline(always)]
fn key_words(class: Priority) -> usize
    ensures value { result ≡ key_words class }
    ensures upper_bound { result ≤ 4 }
{
    match class {
        Priority::P0 | Priority::P1 => 0,
        Priority::P2 => 4,
    }
}

// The words of a hand-in: the first, the key's, and the bytes padded to a word.
#[inline(always)]
fn hand_in_words(class: Priority, length: u16) -> usize
    ensures value { result ≡ hand_in_words class length }
    ensures upper_bound { result ≤ 16389 }
{
    1 + key_words(class) + words_of(usize::from(length))
}

// The words that belong to an item.
#[inline(always)]
pub fn words_taken(item: Item) -> usize
    ensures value { result ≡ takes item }
    ensures lower_bound { (1 ≤ result) × (result ≤ 16389) }
{
    match item {
        Item::Rtt { .. } => 2,
        Item::HandIn { class, length, .. } => hand_in_words(class, length),
        _ => 1,
    }
}

// The low half comes first.
fn hash_of(low: u32, high: u32) -> u64
    ensures { result ≡ hash_of low high }
{
    u64::from(low) + 4294967296 * u64::from(high)
}

// The words of a tape from an item's first on.
#[derive(Clone, Copy)]
pub struct Words<'a> {
    pub tape: &'a [u8],
    pub first: usize,
}

impl<'a> Words<'a> {
    // How many there are; a last one that is cut short does not count.
    #[inline(always)]
    fn count(&self) -> usize
        ensures { result ≡ words_from self.now.tape.now self.now.first }
    {
        (self.tape.len() / WORD).saturating_sub(self.first)
    }

    // The word so many past the first; 0 where it is not whole.
    #[inline(always)]
    fn word(&self, past: u8) -> u32
        ensures { result ≡ word_at self.now.tape.now (self.now.first + past) }
    {
        if self.count() <= usize::from(past) {
            return 0;
        }
        let tape = self.tape;
        let at = WORD * (self.first + usize::from(past));
        u32::from_le_bytes([tape[at], tape[at + 1], tape[at + 2], tape[at + 3]])
    }

    // An item of so many words, broken where it is cut short.
    #[inline(always)]
    fn whole(&self, words: usize, item: Item) -> Item
        ensures { result ≡ whole self.now.tape.now self.now.first words item }
    {
        if words <= self.count() {
            item
        } else {
            Item::Broken
        }
    }

    #[inline(always)]
    fn rtt(&self, value: u32) -> Item
        ensures { result ≡ rtt_of self.now.tape.now self.now.first value }
    {
        let rtt = Item::Rtt {
            peer: value / 256,
            bits: self.word(1),
        };
        self.whole(2, rtt)
    }

    // A signal, by its kind.
    // Stays: [1] here the format's number becomes an `Item`; an enum of signals in between would list the same four cases once more.
    #[inline(always)]
    fn signal(&self, value: u32) -> Item
        ensures { result ≡ signal_of self.now.tape.now self.now.first value }
    {
        match value % 4 {
            0 => Item::Eagain,
            1 => Item::Tos((value / 256 % 256) as u8),
            2 => Item::Nacks(value / 256),
            _ => self.rtt(value),
        }
    }

    #[inline(always)]
    fn hand_in(&self, value: u32) -> Item
        ensures { result ≡ hand_in_of self.now.tape.now self.now.first value }
    {
        let length = (value % 2048) as u16;
        match Priority::try_from((value / 2048 % 4) as u8) {
            Ok(class) => {
                let hand_in = Item::HandIn {
                    pacer: (value / 8192 % 4) as u8,
                    class,
                    length,
                };
                self.whole(hand_in_words(class, length), hand_in)
            }
            Err(_) => Item::Broken,
        }
    }

    // The item whose first word this is, by its kind.
    // Stays: [1] here the format's number becomes an `Item`; an enum of kinds in between would list the same eight cases once more.
    #[inline(always)]
    fn item_of(&self, word: u32) -> Item
        ensures { result ≡ item_of self.now.tape.now self.now.first word }
    {
        let value = word % KIND;
        match word / KIND {
            0 => Item::End,
            1 => Item::Advance(value),
            2 => register_of(value),
            3 => self.signal(value),
            4 => Item::Tick,
            5 => self.hand_in(value),
            6 => Item::Send((value % 4) as u8),
            7 => Item::SetRate(value),
            _ => Item::Broken,
        }
    }

    // The item that begins here.
    #[inline(always)]
    #[tactic(auto, using(crate::proofs::Items::first_word), unfolding(crate::specs::Item::whole, crate::specs::Item::item_at))]
    fn item(&self) -> Item
        ensures { result ≡ item_at self.now.tape.now self.now.first }
    {
        if 1 <= self.count() {
            self.item_of(self.word(0))
        } else {
            Item::Broken
        }
    }

    // The key of the hand-in that begins here; P0 and P1 have none.
    pub fn key(&self, class: Priority) -> InstanceKey
        ensures { result ≡ key_at self.now.tape.now self.now.first class }
    {
        match class {
            Priority::P0 | Priority::P1 => InstanceKey::new(0, 0),
            Priority::P2 => InstanceKey::new(
                hash_of(self.word(1), self.word(2)),
                hash_of(self.word(3), self.word(4)),
            ),
        }
    }

    // The bytes of the hand-in that begins here, as far as the tape has them.
    pub fn body(&self, class: Priority, length: u16) -> &'a [u8]
        ensures { result.now ≡ body_at self.now.tape.now self.now.first class length }
    {
        let ahead = 1 + key_words(class);
        if self.count() < ahead {
            return pool::shown(self.tape, 0, 0);
        }
        pool::shown(self.tape, WORD * (self.first + ahead), usize::from(length))
    }
}
