// The bytes of a request.
ghost use Rattle.std.specs.Prelude.{◌≡◌, ◌++◌, ◌+◌, ◌≤◌, length, take};
ghost use Rattle.laws.specs.Memory.{over};
ghost use Rattle.laws.specs.Puts.{Puts};
ghost use Rattle.frame.specs.Frame.{frame_for};
ghost use Rattle.reader_allowed.specs.Allowed.{most_value};
ghost use Rattle.reader.specs.Building.{request_memory, most_data, wake_up, sent_to, sent_data, Counts};
ghost use Rattle.item_identifier.specs.Identifier.{identifier_bytes};

use crate::Request;
use item_address::WILDCARD;
use item_identifier::identifier_bytes;
use reader_judgement::Action;

// The address field of a request: six AA to read an address.
pub(crate) fn sent_to(action: Action, address: [u8; 6]) -> [u8; 6]
    ensures { result ≡ sent_to action address }
{
    match action {
        Action::ReadData | Action::WriteData => address,
        Action::ReadAddress => [WILDCARD; 6],
    }
}

// Puts a data identifier to the front of the memory.
#[tactic(auto, unfolding(item_identifier::specs::Identifier::identifier_bytes))]
fn put_identifier(identifier: u32, out: &mut [u8])
    requires { 4 ≤ length out.old }
    ensures { out.new ≡ over (identifier_bytes identifier) out.old }
{
    out[..4].copy_from_slice(&identifier_bytes(identifier));
}

// Puts a part of the data to the memory, from a place on.
fn put_part(part: &[u8], place: usize, out: &mut [u8])
    requires { place + length part.now ≤ length out.old }
    ensures { out.new ≡ over (take place out.old ++ part.now) out.old }
{
    out[place..place + part.len()].copy_from_slice(part);
}

// Puts the data of a write: identifier, level, password, operator code, value; answers how many they are.
fn put_write(request: Request, out: &mut [u8]) -> usize
    requires { (request.count ≤ most_value) × (most_data ≤ length out.old) }
    ensures { Puts (sent_data Action.WriteData request) result out.old out.new }
{
    put_identifier(request.identifier, out);
    out[4] = request.level;
    put_part(&request.password, 5, out);
    put_part(&request.operator, 8, out);
    put_part(&request.value[..request.count], 12, out);
    12 + request.count
}

// Puts the data of a request to the front of the memory, and answers how many they are.
#[tactic(auto, unfolding(crate::specs::Building::sent_data))]
fn put_data(request: Request, out: &mut [u8]) -> usize
    requires { Counts request.action request × (most_data ≤ length out.old) }
    ensures { Puts (sent_data request.action request) result out.old out.new }
{
    match request.action {
        Action::ReadData => {
            put_identifier(request.identifier, out);
            4
        }
        Action::ReadAddress => 0,
        Action::WriteData => put_write(request, out),
    }
}

// Writes four FE, and the frame of the request behind them, to the front of the output buffer; answers how many bytes they are.
pub(crate) fn write_request(
    address: [u8; 6],
    control: u8,
    request: Request,
    out: &mut [u8],
) -> usize
    requires { Counts request.action request × (request_memory ≤ length out.old) }
    ensures { Puts (wake_up ++ frame_for address control (sent_data request.action request)) result out.old out.new }
{
    out[0] = 0xFE;
    out[1] = 0xFE;
    out[2] = 0xFE;
    out[3] = 0xFE;
    let count = put_data(request, &mut out[14..]);
    let Ok(n) = frame_parts::write_frame_in_place(address, control, count, &mut out[4..]) else {
        return 0;
    };
    4 + n
}
