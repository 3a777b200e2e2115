// Every function of the port by its number, under a name of C's, for the comparison with the Rust function by function.
// An archive of its own, so that the product's archive is compiled as its users have it.
#![tactic(auto)]

ghost use Rattle.std.specs.Prelude.{◌≡◌};
ghost use Rattle.pxfm.specs.Steps.{step_of};
ghost use Rattle.capi_port.specs.Patterns.{parts_of};

// `inp` holds the arguments in order, a pair as its low part and then its high part; `out` takes the result so.
#[unsafe(no_mangle)]
pub extern "C" fn px_step(which: u32, inp: &[u64; 6], out: &mut [u64; 2])
    ensures { out.new ≡ parts_of (step_of which inp.now) }
{
    capi_port::px_step(which, inp, out);
}
