// The walker of a replay: document 02, W1. It holds the lent trace and its place in it; receiver, meter and readings travel beside it as one
// value. Its functions take it apart, and `replay::step_at` does the work. A program calls `walk_from`.
// That the replies and the meter at the end are those of the calls made by hand is `walked_by_hand` in proofs/Walked.antt.
#![tactic(auto)]

ghost use Rattle.std.specs.Prelude.{◌≡◌};
ghost use Rattle.laws.specs.Memory.{outcome};
ghost use Rattle.replay.specs.Replay.{stepped};
ghost use Rattle.replay_walker.specs.Walker.{begun, moved_to};

use replay::{ReplayState, Stepped, step_at};

// The lent trace, and the place in it where the next record begins.
#[derive(Clone, Copy)]
pub struct Walker<'a> {
    pub trace: &'a [u8],
    pub at: usize,
}

// `begin`, `step` and `moved` stand beside the walker and are no methods of it: callers know these three by their names (docs/host.md).

// The walker of a trace, at its first record.
pub fn begin<'a>(trace: &'a [u8]) -> Walker<'a>
    ensures { result ≡ begun trace.entry }
{
    Walker { trace, at: 0 }
}

// Plays the record at the walker's place, as `replay::step_at` does.
pub fn step<'a>(walker: Walker<'a>, state: ReplayState, out: &mut [u8]) -> Stepped
    ensures { outcome result out.new ≡ stepped walker.entry.trace.now walker.entry.at state out.old }
{
    step_at(walker.trace, walker.at, state, out)
}

// The walker of the same trace at another place: the one that a step has answered.
pub fn moved<'a>(walker: Walker<'a>, at: usize) -> Walker<'a>
    ensures { result ≡ moved_to walker.entry at }
{
    Walker { at, ..walker }
}

// One step over a trace from a place on: a walker of it is made, moved there, and stepped.
pub fn walk_from(trace: &[u8], at: usize, state: ReplayState, out: &mut [u8]) -> Stepped
    ensures { outcome result out.new ≡ stepped trace.now at state out.old }
{
    step(moved(begin(trace), at), state, out)
}
