// The places of a store, one after the other: the lowest of which something holds.
ghost use Rattle.std.specs.Prelude.{not, ◌≡◌, leb, length};
ghost use Rattle.search.specs.Search.{first};
ghost use Rattle.store.specs.Place.{store_size, place as place_in, block_length, holds, free};

use crate::{BLOCK, PLACES, place};

// The lowest place whose length is over 8,192.
pub(crate) fn first_unfit(store: &[u8]) -> Option<usize>
    requires { length store.now ≡ store_size }
    ensures { result ≡ first (λ p. not (leb (block_length (place_in store.now p)) 8192)) 0 64 }
{
    (0..PLACES).find(|p| BLOCK < layout::u16_at(place::at(store, *p), place::LENGTH) as usize)
}

// The lowest place that holds the hash.
pub(crate) fn place_of(store: &[u8], hash: &[u8]) -> Option<usize>
    requires { length store.now ≡ store_size }
    ensures { result ≡ first (λ p. holds (place_in store.now p) hash.now) 0 64 }
{
    (0..PLACES).find(|p| place::holds(place::at(store, *p), hash))
}

// The lowest free place.
pub(crate) fn first_free(store: &[u8]) -> Option<usize>
    requires { length store.now ≡ store_size }
    ensures { result ≡ first (λ p. free (place_in store.now p)) 0 64 }
{
    (0..PLACES).find(|p| place::is_free(place::at(store, *p)))
}
