//! Laws of the definitions. Each stands on a function that does nothing.
ghost use Rattle.blink_batch.specs.ScriptLaw.{FirstRefusalIsTold, ScriptsHaveTheirParts};

/// States which records are a script, and how the others are refused, as relations: without the recursion that defines both.
pub fn scripts_or_first_refusals()
    ensures scripts { ScriptsHaveTheirParts }
    ensures refusals { FirstRefusalIsTold }
{}
