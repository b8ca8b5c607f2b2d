//! Machines that read what nests with a stack of frames, so that nothing in the input makes them recurse.
ghost use Rattle.std.specs.Prelude.{IfOk};
ghost use Rattle.ev_syntax.specs.inner.Machines.{Reads};

use crate::read_pieces::push;
use ev_terms::NoMemory;
use std::alloc::Global;

/// What comes next: a state, perhaps above a new frame, or a piece and the place behind it, or nothing.
#[derive(Drop)]
pub enum Step<F, S, P> {
    Go(S),
    Push(F, S),
    Found(P, usize),
    Fail,
}

/// What is done in each state, and with a piece that a frame waits for.
pub trait Machine {
    type Frame: Drop;

    type State: Drop;

    type Piece: Drop;

    ghost use Rattle.ev_syntax.specs.inner.Machines.{Meaning, Goes, Resumes, Falls, weight_at};

    ghost Tree: { Type 0 };

    ghost meaning: { Self → Meaning Tree Self.Frame Self.State Self.Piece };

    fn step(
        &self,
        state: Self::State,
    ) -> Result<Step<Self::Frame, Self::State, Self::Piece>, NoMemory>
        ensures holds { Goes (meaning self.now) state result }
        ensures falls { Falls (meaning self.now) ((meaning self.now).state_weight state) result };

    fn resume(
        &self,
        frame: Self::Frame,
        piece: Self::Piece,
        at: usize,
    ) -> Result<Step<Self::Frame, Self::State, Self::Piece>, NoMemory>
        ensures holds { Resumes (meaning self.now) frame piece at result }
        ensures falls { Falls (meaning self.now) (weight_at (meaning self.now).tokens at 6) result };
}

/// Reads what the state begins: the piece and the place behind it.
pub fn run<M: Machine>(
    machine: &M,
    alloc: Global,
    start: M::State,
) -> Result<Option<(M::Piece, usize)>, NoMemory>
    ensures { IfOk result (Reads (M.meaning machine.now) start) }
{
    let mut stack = Vec::new(alloc);
    let mut next = Step::Go(start);
    loop {
        next = match next {
            Step::Go(state) => machine.step(state)?,
            Step::Push(frame, state) => {
                push(&mut stack, frame)?;
                machine.step(state)?
            }
            Step::Found(piece, at) => match stack.pop() {
                Some(frame) => machine.resume(frame, piece, at)?,
                None => return Ok(Some((piece, at))),
            },
            Step::Fail => return Ok(None),
        };
    }
}
