// A request as C has it: a control in place of the action.
ghost use Rattle.std.specs.Prelude.{◌≡◌};
ghost use Rattle.call_ends.specs.Numbers.{action_of, request_of};

use reader::Request;
use reader_allowed::MOST_VALUE;
use reader_judgement::Action;

// A request; 11 reads data, 14 writes, and any other control reads the address.
#[repr(C)]
#[derive(Clone, Copy)]
pub struct AskedRequest {
    pub control: u8,
    pub address: [u8; 6],
    pub identifier: u32,
    pub level: u8,
    pub password: [u8; 3],
    pub operator: [u8; 4],
    pub value: [u8; MOST_VALUE],
    pub count: usize,
}

// What a control asks for. Neither type is this crate's, so that it is no `From`.
#[tactic(auto, unfolding(crate::specs::Numbers::action_of))]
fn action_of(control: u8) -> Action
    ensures { result ≡ action_of control }
{
    match control {
        0x11 => Action::ReadData,
        0x14 => Action::WriteData,
        _ => Action::ReadAddress,
    }
}

impl AskedRequest {
    // The request of the reader's end.
    #[tactic(auto, unfolding(crate::specs::Numbers::request_of))]
    pub fn as_request(self) -> Request
        ensures { result ≡ request_of self }
    {
        let AskedRequest {
            control,
            address,
            identifier,
            level,
            password,
            operator,
            value,
            count,
        } = self;
        Request {
            action: action_of(control),
            address,
            identifier,
            level,
            password,
            operator,
            value,
            count,
        }
    }
}
