// The held records end to end: their length, and their bytes.
ghost use Rattle.std.specs.Prelude.{◌≡◌, ◌≤◌, ◌++◌, length, drop};
ghost use Rattle.protocol.specs.Server.{all_held};

use crate::held::Lent;

impl Lent<'_> {
    // The length of the held records.
    pub(crate) fn length(&self) -> usize
        ensures { result ≡ length (all_held self.now) }
    {
        let mut n = 0;
        for v in 0..16 {
            n += self.held(v).len();
        }
        n
    }

    // Writes the held records to the front.
    pub(crate) fn write(&self, out: &mut [u8])
        requires { length (all_held self.now) ≤ length out.old }
        ensures { out.new ≡ all_held self.now ++ drop (length (all_held self.now)) out.old }
    {
        let mut at = 0;
        for v in 0..16 {
            let held = self.held(v);
            if held.is_empty() {
                continue;
            }
            layout::copy(held, &mut out[at..at + held.len()]);
            at += held.len();
        }
    }
}
