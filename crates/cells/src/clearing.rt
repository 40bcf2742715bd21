// The first elements of a run made zero; what stands behind stays.
ghost use Rattle.std.specs.Prelude.{◌≡◌, ◌++◌, ◌≤◌, length, drop, replicate};

// A loop: `fill` would ask of each caller that a clone cannot fail (`is_infallible`), which `T: Copy` does not say.
pub fn clear<T: Copy>(items: &mut [T], n: usize, zero: T)
    requires { n ≤ length items.old }
    ensures { items.new ≡ replicate n zero ++ drop n items.old }
{
    for item in &mut items[..n] {
        *item = zero;
    }
}
