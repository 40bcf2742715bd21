// Numbers that a host gives.
ghost use Rattle.std.specs.Prelude.{◌≡◌};
ghost use Rattle.rules.specs.Table.{cleaned};

// The number to use: minus zero is taken as plus zero, and any other stays.
pub fn cleaned(x: f64) -> f64
    ensures { result ≡ cleaned x }
{
    if x == 0.0 { 0.0 } else { x }
}
