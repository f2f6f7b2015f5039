// The bytes of members that were picked, joined.
ghost use Rattle.std.specs.Prelude.{◌≡◌, ◌++◌, ◌≤◌, length, drop};
ghost use Rattle.members.specs.inner.Joining.{picked_bytes, Copies};

// Writes the bytes of the members picked, joined, to the front of out.
#[tactic(auto, using(crate::proofs::Joined::copy_laws))]
pub fn copy_picked(s: &[u8], starts: &[u32; 257], picks: &[u8], out: &mut [u8])
    requires copies { Copies s.now starts.now picks.now }
    requires room { length (picked_bytes s.now starts.now picks.now) ≤ length out.old }
    ensures { out.new ≡ picked_bytes s.now starts.now picks.now ++ drop (length (picked_bytes s.now starts.now picks.now)) out.old }
{
    let mut at = 0;
    for pick in picks {
        let i = usize::from(*pick);
        let from = starts[i] as usize;
        let to = starts[i + 1] as usize;
        byte_runs::copy(&s[from..to], &mut out[at..]);
        at += to - from;
    }
}
