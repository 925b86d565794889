// A whole recorded line's C functions, for C: each calls the function of its name in `receive_line`, with its clauses.
#![tactic(auto)]

ghost use Rattle.std.specs.Prelude.{◌≡◌};
ghost use Rattle.laws.specs.Memory.{outcome};
ghost use Rattle.receive_line.specs.WholeLine.{received_line};

#[unsafe(no_mangle)]
pub extern "C" fn receive_line(input: &[u8], out: &mut [u8]) -> usize
    ensures { outcome result out.new ≡ received_line input.now out.old }
{
    receive_line::receive_line(input, out)
}

#[unsafe(no_mangle)]
pub extern "C" fn read_line(input: &[u8], out: &mut [u8]) -> usize
    ensures { outcome result out.new ≡ received_line input.now out.old }
{
    receive_line::read_line(input, out)
}
