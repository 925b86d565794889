// Steps of a replay, and what is written of them: the lines of the replies as they come, and the last answer. Each step is made by a walker of the
// trace, whose contract is that of `replay::step_at`.
use crate::state::State;
use replay::StepAnswer;
use replay_walker::walk_from;
use run_replay_parts::memory::{MEMORY, write_text};
use run_text::memory::FILL;
use run_text::say;
use std::io::Stdout;

// Writes an answer.
fn say_answer(to: Stdout, answer: StepAnswer) {
    match answer {
        StepAnswer::Done => say!(to; "done"),
        StepAnswer::Refused(refusal) => say!(to; "refused {}", refusal.number()),
        StepAnswer::BadRecord { refusal, place } => say!(to; "bad {} {place}", refusal.number()),
        StepAnswer::Played { text, lines, next } => say!(to; "played {text} {lines} {next}"),
    }
}

// Where an answer says that a record is played: how many bytes of text there are, and the place of the next record.
fn played_of(answer: StepAnswer) -> Option<(usize, usize)> {
    match answer {
        StepAnswer::Played { text, next, .. } => Some((text, next)),
        _ => None,
    }
}

// So many steps over the trace at the front of its buffer, or fewer where one plays nothing. Each has an output buffer that is filled before it.
pub(crate) fn steps(state: State, count: u32, trace: &[u8]) -> State {
    let Some(trace) = trace.get(..state.length) else {
        return state;
    };
    let to = state.to;
    let room = state.room.min(MEMORY);
    let mut present = state;
    for left in (0..count).rev() {
        let mut out = [FILL; MEMORY];
        let stepped = walk_from(trace, present.place, present.replay, &mut out[..room]);
        let answer = stepped.answer;
        let played = played_of(answer);
        let (text, place) = played.unwrap_or((0, present.place));
        write_text(to, &out, text);
        present = State {
            replay: stepped.state,
            place,
            ..present
        };
        if left == 0 || played.is_none() {
            say_answer(to, answer);
            return present;
        }
    }
    present
}
