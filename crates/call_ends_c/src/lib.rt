// Each end's C functions, for C: each calls the function of its name in `call_ends`, with its clauses.
#![tactic(auto)]

ghost use Rattle.std.specs.Prelude.{◌≡◌};
ghost use Rattle.laws.specs.Memory.{outcome};
ghost use Rattle.meter.specs.Host.{key_set, pulsed_by, settled_by};
ghost use Rattle.meter.specs.Answer.{answered};
ghost use Rattle.reader.specs.Building.{built};
ghost use Rattle.reader.specs.Judging.{judged};
ghost use Rattle.call_ends.specs.Numbers.{told, meter_set_of, meter_counted_of, meter_answer_of, request_built_of, numbered, reply_judged_of, request_of};

use call_ends::request::AskedRequest;
use call_ends::{MeterAnswer, MeterCounted, MeterSet, ReplyJudged, RequestBuilt};
use energy::Energies;
use meter::Meter;

#[unsafe(no_mangle)]
pub extern "C" fn call_answer(
    meter: Meter,
    energies: Energies,
    bytes: &[u8],
    out: &mut [u8],
) -> MeterAnswer
    ensures { outcome result out.new ≡ told meter_answer_of (answered bytes.now meter energies.forward energies.reverse out.old) }
{
    call_ends::call_answer(meter, energies, bytes, out)
}

#[unsafe(no_mangle)]
pub extern "C" fn call_set_key(meter: Meter, energies: Energies, on: bool) -> MeterSet
    ensures { result ≡ meter_set_of (key_set on meter energies.forward energies.reverse) }
{
    call_ends::call_set_key(meter, energies, on)
}

#[unsafe(no_mangle)]
pub extern "C" fn call_pulse(
    meter: Meter,
    energies: Energies,
    amount: u32,
    direction: u8,
    rate: u8,
) -> MeterCounted
    ensures { result ≡ meter_counted_of (pulsed_by amount direction rate meter energies.forward energies.reverse) }
{
    call_ends::call_pulse(meter, energies, amount, direction, rate)
}

#[unsafe(no_mangle)]
pub extern "C" fn call_settle(meter: Meter, energies: Energies) -> MeterCounted
    ensures { result ≡ meter_counted_of (settled_by meter energies.forward energies.reverse) }
{
    call_ends::call_settle(meter, energies)
}

#[unsafe(no_mangle)]
pub extern "C" fn call_build(request: AskedRequest, out: &mut [u8]) -> RequestBuilt
    ensures { outcome result out.new ≡ told request_built_of (built (request_of request) out.old) }
{
    call_ends::call_build(request, out)
}

#[unsafe(no_mangle)]
pub extern "C" fn call_judge(request: AskedRequest, bytes: &[u8], out: &mut [u8]) -> ReplyJudged
    ensures { outcome result out.new ≡ told (λ judgement. reply_judged_of (numbered judgement)) (judged (request_of request) bytes.now out.old) }
{
    call_ends::call_judge(request, bytes, out)
}
