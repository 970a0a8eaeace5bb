// At how many places two slices differ.
#![tactic(auto)]

ghost use Rattle.std.specs.Prelude.{◌≡◌, length};
ghost use Rattle.basics.specs.Lists.{differences_by};

// At how many places two slices of the same length differ.
pub fn differences<T: PartialEq>(s: &[T], t: &[T]) -> usize
    requires { length s.now ≡ length t.now }
    ensures { result ≡ differences_by T.eq s.now t.now }
{
    s.iter().zip(t.iter()).filter(|(a, b)| a != b).count()
}
