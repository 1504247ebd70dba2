// Start, stop, status and buffer query. Any state may come: what is not set up, or runs, decides by its flags alone.
ghost use Rattle.std.specs.Prelude.{◌≡◌, cond, eqb};
ghost use Rattle.document.specs.Numbers.{done, not_set_up};
ghost use Rattle.codes_table.specs.Statuses.{status_number, outcome_number};
ghost use Rattle.recorder_state.specs.State.{recorder_of};
ghost use Rattle.recorder_state.specs.Calls.{StartSettled, StopSettled, status_status, QuerySettled};

use crate::state::Recorder;
use codes_table::Status;
use recorder_runs::Run;

impl Recorder {
    // What every call but a setup asks first.
    fn check_set_up(&self) -> Result<(), Status>
        ensures { outcome_number result ≡ cond (eqb self.now.ready 0) not_set_up done }
    {
        if self.ready == 0 {
            return Err(Status::NotSetUp);
        }
        Ok(())
    }

    // Running it stays as it is; stopped it forgets the run before.
    pub fn start(&mut self) -> Result<(), Status>
        ensures { StartSettled self.old result self.new }
    {
        self.check_set_up()?;
        if self.run.running == 1 {
            return Err(Status::RecorderRuns);
        }
        self.run = Run::started();
        Ok(())
    }

    // All but the flag stays, so that the start index can be asked for.
    pub fn stop(&mut self) -> Result<(), Status>
        ensures { StopSettled self.old result self.new }
    {
        self.check_set_up()?;
        if self.run.running != 1 {
            return Err(Status::RecorderStopped);
        }
        self.run.running = 0;
        Ok(())
    }

    pub fn status(self) -> Status
        ensures { status_number result ≡ status_status (recorder_of self) }
    {
        if self.ready == 0 {
            return Status::NotSetUp;
        }
        if self.run.running == 1 {
            return Status::RecorderRuns;
        }
        Status::RecorderStopped
    }

    // The start index is 0 until 'samples' sets are taken, then the place that would be written next.
    pub fn query(self) -> Result<u16, Status>
        ensures { QuerySettled self result }
    {
        self.check_set_up()?;
        if self.run.running == 1 {
            return Err(Status::Busy);
        }
        if self.run.full == 1 {
            return Ok(self.run.place);
        }
        Ok(0)
    }
}
