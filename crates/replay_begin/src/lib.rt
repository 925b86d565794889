// How the replay program begins: with a session of the address that it is given, or with what is said where it is given none.
#![tactic(auto)]

ghost use Rattle.std.specs.Prelude.{◌≡◌};
ghost use Rattle.replay_begin.specs.Beginning.{address_given, opening_by, beginning};

use frame::refusal::Refusal;
use replay_address::read_address;
use replay_block::{Begun, Session};
use replay_text::{Message, Reason};

// The beginning of the program, with the session; where none begins, what is said, and a session of which every block is refused with 16.
#[derive(Clone, Copy)]
pub struct Beginning {
    pub session: Session,
    pub opening: Result<(), Message>,
}

// The address that the second of two words spells; six bytes FF, which no meter has, where there are not two words or it spells none.
#[tactic(auto, unfolding(crate::specs::Beginning::address_given))]
fn address_given(words: usize, word: &[u8]) -> [u8; 6]
    ensures { result ≡ address_given words word.now }
{
    if words != 2 {
        return [255; 6];
    }
    read_address(word).unwrap_or([255; 6])
}

// Whether a session begins, or what is said, by the answer to its beginning in a call of so many words.
fn opening_by(answer: Result<(), Refusal>, words: usize) -> Result<(), Message>
    ensures { result ≡ opening_by answer words }
{
    match answer {
        Ok(()) => Ok(()),
        Err(_) if words == 2 => Err(Message::Usage(Reason::BadAddress)),
        Err(_) => Err(Message::Usage(Reason::NotOneArgument)),
    }
}

// Begins with a call of so many words, the program's name among them; the word behind it is this.
#[tactic(auto, unfolding(crate::specs::Beginning::beginning))]
pub fn begin_with(words: usize, word: &[u8]) -> Beginning
    ensures { result ≡ beginning words word.now }
{
    let Begun { session, answer } = replay_block::begin(address_given(words, word));
    Beginning {
        session,
        opening: opening_by(answer, words),
    }
}
