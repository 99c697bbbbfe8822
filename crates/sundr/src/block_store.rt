// The block store, for C: made, and changed, in a lent buffer.
ghost use Rattle.std.specs.Prelude.{◌≡◌, length};
ghost use Rattle.refusal.specs.Result.{left};
ghost use Rattle.refusal.specs.Word.{answer_word, plain_word};
ghost use Rattle.store.specs.Calls.{make, store as store_of, retrieve, retrieve_into, unreference, after_unreference};

// An empty store, of 526,464 lent bytes.
pub fn sundr_store_make(store: &mut [u8]) -> u64
    ensures answer { result ≡ plain_word (make store.old) }
    ensures buffer { store.new ≡ left (make store.old) store.old }
{
    refusal::answer_word(blockstore::make(store))
}

// A block stored for a user.
pub fn sundr_store(store: &mut [u8], user: u8, block: &[u8]) -> u64
    ensures answer { result ≡ plain_word (store_of store.old user block.now) }
    ensures buffer { store.new ≡ left (store_of store.old user block.now) store.old }
{
    refusal::answer_word(blockstore::store(store, user, block))
}

// The block of a hash, to the front of a lent buffer: the first result is its length.
pub fn sundr_retrieve(store: &[u8], hash: &[u8], out: &mut [u8]) -> u64
    ensures answer { result ≡ answer_word length (λ b. 0) (retrieve store.now hash.now (length out.old)) }
    ensures buffer { out.new ≡ left (retrieve_into store.now hash.now out.old) out.old }
{
    refusal::answer_word(blockstore::retrieve(store, hash, out))
}

// One taken from a user's count of a hash: the first result is 1, or 0 if there was none to take.
pub fn sundr_unreference(store: &mut [u8], user: u8, hash: &[u8]) -> u64
    ensures answer { result ≡ answer_word (λ t. t.took) (λ t. 0) (unreference store.old user hash.now) }
    ensures buffer { store.new ≡ left (after_unreference store.old user hash.now) store.old }
{
    refusal::answer_word(blockstore::unreference(store, user, hash))
}
