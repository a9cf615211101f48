// What a queue keeps of a record beside its bytes.
ghost use Rattle.std.specs.Prelude.{◌≡◌};
ghost use Rattle.queue.specs.Coalescing.{key_of, keyless_of};
ghost use Rattle.queue.specs.Entries.{entry_of, key_of_hashes, keyed_entry, no_entry, no_keyed_entry};

use crate::coalescing::hash_bytes;

// Two hashes are the key: of the topic's name and of the instance's key bytes.
#[derive(Clone, Copy, Debug, PartialEq, Eq)]
pub struct InstanceKey {
    pub topic_hash: u64,
    pub key_hash: u64,
}

// A record's sequence number and its length in bytes.
#[derive(Clone, Copy, Debug, PartialEq, Eq)]
pub struct Entry {
    pub sequence: u64,
    pub length: u64,
}

// A background record's entry, with the key that it waits under.
#[derive(Clone, Copy, Debug, PartialEq, Eq)]
pub struct KeyedEntry {
    pub entry: Entry,
    pub key: InstanceKey,
}

impl InstanceKey {
    pub fn new(topic_hash: u64, key_hash: u64) -> InstanceKey
        ensures { result ≡ key_of_hashes topic_hash key_hash }
    {
        InstanceKey {
            topic_hash,
            key_hash,
        }
    }

    // From a topic's name and key bytes.
    pub fn from_topic_and_key(topic: &[u8], key: &[u8]) -> InstanceKey
        ensures { result ≡ key_of topic.now key.now }
    {
        InstanceKey {
            topic_hash: hash_bytes(topic),
            key_hash: hash_bytes(key),
        }
    }

    // For a topic with a single instance.
    pub fn keyless(topic: &[u8]) -> InstanceKey
        ensures { result ≡ keyless_of topic.now }
    {
        InstanceKey {
            topic_hash: hash_bytes(topic),
            key_hash: 0,
        }
    }
}

impl Entry {
    // What a slot holds before its first record.
    pub const BLANK: Entry = Entry {
        sequence: 0,
        length: 0,
    };

    pub fn new(sequence: u64, length: u64) -> Entry
        ensures { result ≡ entry_of sequence length }
    {
        Entry { sequence, length }
    }
}

impl KeyedEntry {
    // What a slot of background records holds before its first one.
    pub const BLANK: KeyedEntry = KeyedEntry {
        entry: Entry::BLANK,
        key: InstanceKey {
            topic_hash: 0,
            key_hash: 0,
        },
    };

    pub fn new(entry: Entry, key: InstanceKey) -> KeyedEntry
        ensures { result ≡ keyed_entry entry key }
    {
        KeyedEntry { entry, key }
    }
}

// What a free slot of a queue holds: always the same, so that what waits says what all slots hold.
pub trait Blank: Copy + Drop {
    ghost blank_is: { Self };

    fn blank() -> Self
        ensures { result ≡ blank_is };
}

impl Blank for Entry {
    ghost blank_is = { no_entry };

    fn blank() -> Entry {
        Entry::BLANK
    }
}

impl Blank for KeyedEntry {
    ghost blank_is = { no_keyed_entry };

    fn blank() -> KeyedEntry {
        KeyedEntry::BLANK
    }
}
