// A step: one match on the process's standing and what its program has next. And cancelling.
ghost use Rattle.std.specs.Prelude.{◌≡◌};
ghost use Rattle.protocol.specs.Hall.{answered};
ghost use Rattle.protocol.specs.Call.{stepping, cancelling};
ghost use Rattle.protocol.specs.CallFunction.{outcome};
ghost use Rattle.protocol.specs.Held.{Held};
ghost use Rattle.hall.specs.Model.{model};
ghost use Rattle.hall.specs.Replies.{step_reply, cancel_reply};

use super::Tables;
use program::{Kind, Step};
use protocol::{Aim, Direction, Refusal, Standing, Turn};
use station::Station;

impl<S: Station> Tables<S> {
    // A step of the process of a start number.
    pub(crate) fn step(&mut self, start: u16) -> Result<Turn, Refusal>
        requires { ∥ Held (model S.Station.view self.old) ∥₁ }
        ensures { answered (model S.Station.view self.new) (step_reply result) ≡ outcome S.Station.meaning (model S.Station.view self.old) (stepping start) }
    {
        let p = self.process(start).ok_or(Refusal::NoProcess)?;
        // one match on the standing together with what is next: the rules of the project ask for it
        Ok(match (p.standing, self.next_step(p)) {
            (Standing::Withdrawing(_) | Standing::PastPivot(Direction::Back), _) => self.back(p),
            (_, None) => self.commit(p),
            (
                _,
                Some(
                    Step {
                        kind: Kind::Pivot,
                        activity,
                    },
                ),
            ) => self.pivot(p, activity),
            (_, Some(step)) => self.go(p, step),
        })
    }

    // A running process is set to withdraw, and then to end.
    pub(crate) fn cancel(&mut self, start: u16) -> Result<(), Refusal>
        requires { ∥ Held (model S.Station.view self.old) ∥₁ }
        ensures { answered (model S.Station.view self.new) (cancel_reply result) ≡ outcome S.Station.meaning (model S.Station.view self.old) (cancelling start) }
    {
        let p = self.process(start).ok_or(Refusal::NoProcess)?;
        match p.standing {
            Standing::Running => {
                self.relocate(p, Standing::Withdrawing(Aim::End), p.cursor);
                Ok(())
            }
            Standing::Withdrawing(_) => Err(Refusal::IsWithdrawing),
            Standing::PastPivot(_) => Err(Refusal::IsPastPivot),
        }
    }
}
