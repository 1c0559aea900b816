// The square root for callers in C: the exported function is that of its name in the crate `root`, and states its
// clause again.
#![tactic(auto)]

ghost use Rattle.std.specs.Prelude.{◌≡◌};
ghost use Rattle.definitions.specs.Vectors.{square_root, value_of};

#[unsafe(no_mangle)]
pub extern "C" fn root_or_nan(x: f64) -> f64
    ensures { result ≡ value_of (square_root x) }
{
    root::root_or_nan(x)
}
