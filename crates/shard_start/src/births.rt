// How much was born where a session stands.
ghost use Rattle.std.specs.Prelude.{Some, List};
ghost use Rattle.command_tables.specs.Calls.{ReplyContent};
ghost use Rattle.trace_format.specs.Content.{TraceEvent};
ghost use Rattle.replay_model.specs.Setup.{Setup};
ghost use Rattle.chain_session.specs.declared.kept.Kept.{Kept};
ghost use Rattle.chain_session.specs.Standing.{StandsFor};
ghost use Rattle.walk_bounds.specs.Bounds.{HaveBorn};

/// To no threads part were more objects born than names came to stand for objects.
pub fn few_objects_were_born()
    ensures { (s : Setup) (k : Kept) (events : List TraceEvent) (replies : List ReplyContent) → StandsFor s (Some k) events replies → HaveBorn k.parts.names.kept.count k.parts.states.kept }
{}
