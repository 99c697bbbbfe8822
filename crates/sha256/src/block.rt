// The hash of one block (FIPS 180-4, 6.2.2).
ghost use Rattle.std.specs.Prelude.{◌≡◌, length};
ghost use Rattle.sha256.specs.Sha256.{added, compressed};
ghost use Rattle.sha256.specs.WordsTaken.{loaded};

use crate::State;
use crate::rounds::{Queue, sixteen};

// The words of the block. Its 64 bytes are there by contract: layout::u32_at would ask for their end
// again, at 8 % more instructions.
fn load(block: &[u8], w: &mut Queue)
    requires { length block.now ≡ 64 }
    ensures { w.new.words ≡ loaded block.now }
{
    for t in 0..16 {
        w.words[t] = layout::join(
            block[4 * t],
            block[4 * t + 1],
            block[4 * t + 2],
            block[4 * t + 3],
        );
    }
}

// The sums with which a block ends.
fn add(s: State, r: State) -> State
    ensures { result ≡ added s r }
{
    State {
        a: r.a.wrapping_add(s.a),
        b: r.b.wrapping_add(s.b),
        c: r.c.wrapping_add(s.c),
        d: r.d.wrapping_add(s.d),
        e: r.e.wrapping_add(s.e),
        f: r.f.wrapping_add(s.f),
        g: r.g.wrapping_add(s.g),
        h: r.h.wrapping_add(s.h),
    }
}

// The hash value after one more block.
pub(crate) fn compress(s: State, block: &[u8]) -> State
    requires { length block.now ≡ 64 }
    ensures { result ≡ compressed s block.now }
{
    let mut w = Queue { words: [0; 16] };
    load(block, &mut w);
    let s1 = sixteen::<0>(s, &mut w);
    let s2 = sixteen::<16>(s1, &mut w);
    let s3 = sixteen::<32>(s2, &mut w);
    add(s, sixteen::<48>(s3, &mut w))
}
