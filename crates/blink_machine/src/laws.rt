//! Laws of one operation and of its steps. Each stands on a function that does nothing.
ghost use Rattle.blink_machine.specs.LeafLaw.{LeafTellsItsKeys};
ghost use Rattle.blink_machine.specs.OneResult.{OneChange, OneResultOfPage, OneResultOfPrime};
ghost use Rattle.blink_machine.specs.StepLaw.{StepLaw};

/// States that what an operation makes of what it reads is determined, and so is the change that it makes.
pub fn reads_have_one_result()
    ensures of_prime { OneResultOfPrime }
    ensures of_page { OneResultOfPage }
    ensures change { OneChange }
{}

/// States the law that all promises about steps follow from. It speaks of pages, latches and operations as partial maps,
/// whatever memory holds them, and of any number of workers. It says how **the invariant** begins to hold, what it says, what
/// each step keeps of it, decides and uses up, and how it ends. A memory of its own that takes each step as the table has it may
/// rely on this law. Its proofs do so by the lemma `step_law`, which is this clause.
pub fn step_keeps()
    ensures { StepLaw }
{}

/// States that a leaf tells the state of each of its keys to an operation that has come to it. A scan rests on this law.
pub fn leaf_tells_its_keys()
    ensures { LeafTellsItsKeys }
{}
