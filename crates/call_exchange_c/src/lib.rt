// Both ends' exchange as a C function, for C: it calls `call_exchange::call_exchange`, with its clauses.
#![tactic(auto)]

ghost use Rattle.std.specs.Prelude.{◌≡◌};
ghost use Rattle.exchange.specs.Exchange.{memories, exchanged};
ghost use Rattle.call_ends.specs.Numbers.{request_of};
ghost use Rattle.call_exchange.specs.Numbers.{done_with, exchange_told};

use call_ends::request::AskedRequest;
use call_exchange::ExchangeDone;
use energy::Energies;
use meter::Meter;

#[unsafe(no_mangle)]
pub extern "C" fn call_exchange(
    request: AskedRequest,
    meter: Meter,
    energies: Energies,
    sent: &mut [u8],
    heard: &mut [u8],
    reply: &mut [u8],
    value: &mut [u8],
) -> ExchangeDone
    ensures { done_with result (memories sent.new heard.new reply.new value.new) ≡ exchange_told (exchanged (request_of request) meter energies.forward energies.reverse (memories sent.old heard.old reply.old value.old)) }
{
    call_exchange::call_exchange(request, meter, energies, sent, heard, reply, value)
}
