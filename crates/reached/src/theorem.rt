// The run of `specs/Run.antt` is reached.
ghost use Rattle.reached.specs.Run.{RunReached};

pub fn run_is_reached()
    ensures { RunReached }
{}
