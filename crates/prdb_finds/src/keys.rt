//! The keys of chains: each name and each id has one of 256.
ghost use Rattle.std.specs.Prelude.{◌≡◌, ◌<◌};
ghost use Rattle.db_chains.specs.Keys.{name_key};
ghost use Rattle.prdb_finds.specs.Keys.{id_key};

/// How many chains there are of names, and how many of ids.
const CHAINS: u32 = 256;

/// The key of a name: the sum of its bytes, modulo 256.
pub(crate) fn name_key(name: &[u8]) -> u32
    ensures key { result ≡ name_key name.now }
    ensures below { result < CHAINS }
{
    let mut key: u8 = 0;
    for byte in name {
        key = key.wrapping_add(*byte);
    }
    u32::from(key)
}

/// The key of an id: the id in two's complement, modulo 256.
pub(crate) fn id_key(id: i32) -> u32
    ensures key { result ≡ id_key id }
    ensures below { result < CHAINS }
{
    id.cast_unsigned() % CHAINS
}
