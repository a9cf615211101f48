// The digest of many fields in one: FNV-1a on whole fields.
use config::config::Priority;
use numeric::integer::wrapping_mul;
use queue::entry::KeyedEntry;

// FNV-1a's offset basis and prime. The basis is also the digest of nothing.
pub(crate) const DIGEST_START: u64 = 14695981039346656037;

const DIGEST_PRIME: u64 = 1099511628211;

// A digest with fields joined to it, one after the other.
pub(crate) fn joined(digest: u64, fields: &[u64]) -> u64 {
    fields
        .iter()
        .fold(digest, |d, field| wrapping_mul(d ^ *field, DIGEST_PRIME))
}

// A record that waits: its sequence and length, and of P2 its key; no place holds none.
pub(crate) fn joined_entry(digest: u64, class: Priority, waiting: Option<KeyedEntry>) -> u64 {
    let Some(KeyedEntry { entry, key }) = waiting else {
        return digest;
    };
    let d = joined(digest, &[entry.sequence, entry.length]);
    match class {
        Priority::P0 | Priority::P1 => d,
        Priority::P2 => joined(d, &[key.topic_hash, key.key_hash]),
    }
}
