// Places that must be 0.
ghost use Rattle.std.specs.Prelude.{◌≡◌, true, ◌↔◌, ◌≤◌, length};
ghost use Rattle.checker.specs.Tests.{Zeros};

// Places first to past - 1 of the slice are 0. All of them are read: without a branch on each place the compiler can
// test several at a time.
pub fn all_zero(s: &[u16], first: usize, past: usize) -> bool
    requires { (first ≤ past) × (past ≤ length s.now) }
    ensures { (result ≡ true) ↔ Zeros s.now first past }
{
    s[first..past].iter().fold(true, |zero, x| zero & (*x == 0))
}
