// The sixty-four rounds of a block (FIPS 180-4, 6.2.2, steps 1 and 3). The schedule is kept in sixteen words: W t
// stands at t % 16 until its round is done, and then W (t + 16) takes its place.
//
// Sixteen rounds stand in one function for each round from which they start, which is called once: the compiler then makes
// one piece of all, in which every place is a literal, and no copy of the table of constants is left.
ghost use Rattle.std.specs.Prelude.{◌≡◌, ◌+◌, ◌%◌, ◌<◌, ◌≤◌, length, slice_index};
ghost use Rattle.sha256.specs.Sha256.{K, round_of};
ghost use Rattle.sha256.specs.WordsTaken.{rolled};
ghost use Rattle.sha256.specs.Internal.Rolling.{after_round, queue_after, rounds_over};

use crate::word::{big_sigma0, big_sigma1, choose, majority, small_sigma0, small_sigma1};
use crate::{K, State};

// The words of the schedule that the next rounds take.
#[derive(Drop)]
pub(crate) struct Queue {
    pub(crate) words: [u32; 16],
    ghost long: { length words ≡ 16 },
}

// One round. What waits least for the round before goes first: the majority, of which that round has computed a part,
// and the sum k + w.
fn round(s: State, k: u32, w: u32) -> State
    ensures { result ≡ round_of s k w }
{
    let m = majority(s.a, s.b, s.c);
    let h = s.h.wrapping_add(k.wrapping_add(w));
    let t1 = h
        .wrapping_add(choose(s.e, s.f, s.g))
        .wrapping_add(big_sigma1(s.e));
    let e = s.d.wrapping_add(t1);
    let t2 = big_sigma0(s.a).wrapping_add(m);
    State {
        a: t1.wrapping_add(t2),
        b: s.a,
        c: s.b,
        d: s.c,
        e,
        f: s.e,
        g: s.f,
        h: s.g,
    }
}

// Puts W (t + 16) in its place, which is that of W t.
fn roll(w: &mut Queue, t: usize)
    requires { t < 48 }
    ensures { w.new.words ≡ rolled w.old.words t }
{
    let x = small_sigma1(w.words[(t + 14) % 16]);
    let y = x.wrapping_add(w.words[(t + 9) % 16]);
    let z = y.wrapping_add(small_sigma0(w.words[(t + 1) % 16]));
    w.words[(t + 16) % 16] = z.wrapping_add(w.words[t % 16]);
}

// Round t, by its constant and the word at its place, which gives way to the word sixteen after it, if there is one.
fn turn(s: State, w: &mut Queue, t: usize) -> State
    requires { t < 64 }
    ensures takes { result ≡ round_of s (slice_index K t) (slice_index w.old.words (t % 16)) }
    ensures leaves { w.new.words ≡ after_round w.old.words t }
{
    let x = w.words[t % 16];
    if t < 48 {
        roll(w, t);
    }
    round(s, K[t], x)
}

// The sixteen rounds from one on.
// Kept: written out; tried as `for t in FROM..FROM + 16`, which LLVM leaves a loop here: 46 % more instructions, and a table.
pub(crate) fn sixteen<const FROM: usize>(s: State, w: &mut Queue) -> State
    requires { FROM ≤ 48 }
    ensures takes { result ≡ rounds_over (queue_after w.old.words FROM) s FROM 16 }
    ensures leaves { w.new.words ≡ queue_after w.old.words FROM 16 }
{
    let s1 = turn(s, w, FROM);
    let s2 = turn(s1, w, FROM + 1);
    let s3 = turn(s2, w, FROM + 2);
    let s4 = turn(s3, w, FROM + 3);
    let s5 = turn(s4, w, FROM + 4);
    let s6 = turn(s5, w, FROM + 5);
    let s7 = turn(s6, w, FROM + 6);
    let s8 = turn(s7, w, FROM + 7);
    let s9 = turn(s8, w, FROM + 8);
    let s10 = turn(s9, w, FROM + 9);
    let s11 = turn(s10, w, FROM + 10);
    let s12 = turn(s11, w, FROM + 11);
    let s13 = turn(s12, w, FROM + 12);
    let s14 = turn(s13, w, FROM + 13);
    let s15 = turn(s14, w, FROM + 14);
    turn(s15, w, FROM + 15)
}
